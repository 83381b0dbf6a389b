//! Which board is found.

use board_record::{BoardId, Record};
use forecast_query::find;
use line_base::Text;
use std::alloc::Global;
use std::io;
use std::io::Write;

/// Appends the place of the board that is found.
pub fn tell(alloc: Global, case: &str, to: &mut Vec<u8>) -> io::Result<()> {
    let mut boards = Vec::new(alloc);
    let mut top = None;
    let mut bottom = None;
    for (place, word) in case.split_whitespace().enumerate() {
        match place {
            0 => top = barcode(alloc, word),
            1 => bottom = barcode(alloc, word),
            _ => {
                if let Some(board) = board(alloc, word) {
                    let _ = boards.push(board);
                }
            }
        }
    }
    match find(boards.as_slice(), top.as_ref(), bottom.as_ref()) {
        Some(place) => write!(to, "{place}"),
        None => to.write_all(b"none"),
    }
}

/// A board with a top and a bottom barcode, parted by a colon.
pub fn board(alloc: Global, word: &str) -> Option<Record> {
    let (top, bottom) = word.split_once(":")?;
    let maker = Text::read(alloc, b"M1").ok()?;
    let mut board = Record::plain(BoardId::of(7), maker, barcode(alloc, top));
    board.bottom = barcode(alloc, bottom);
    Some(board)
}

fn barcode(alloc: Global, word: &str) -> Option<Text> {
    if word == "-" {
        return None;
    }
    Text::read(alloc, word.as_bytes()).ok()
}
