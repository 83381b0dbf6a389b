//! What is told of a board.

use crate::query::asked::board;
use board_record::{Record, SubBoard, SubBoards};
use forecast_query::{forecast_of, info_of};
use hermes_horizontal::Info;
use line_base::{Quality, Text};
use std::alloc::Global;
use std::io;
use std::io::Write;

/// Appends what is told of a board with two barcodes, and with so many circuits, as an answer to a
/// question or as a forecast: whether its id and its maker are, its barcodes, and how many circuits.
pub fn tell(alloc: Global, is_asked: bool, words: &str, to: &mut Vec<u8>) -> io::Result<()> {
    let (barcodes, count) = words.split_once(' ').unwrap_or((words, ""));
    match board(alloc, barcodes) {
        Some(mut board) => {
            add_circuits(alloc, count.parse().unwrap_or(0), &mut board.subs);
            tell_of(alloc, is_asked, &board, to)
        }
        None => to.write_all(b"no board"),
    }
}

fn add_circuits(alloc: Global, count: u32, subs: &mut SubBoards) {
    for pos in 0..count {
        let _ = subs.push(
            alloc,
            SubBoard {
                pos,
                barcode: None,
                state: Quality::Good,
            },
        );
    }
}

fn tell_of(alloc: Global, is_asked: bool, board: &Record, to: &mut Vec<u8>) -> io::Result<()> {
    let info = if is_asked {
        info_of(alloc, board)
    } else {
        forecast_of(alloc, board)
    };
    match info {
        Ok(info) => tell_info(&info, to),
        Err(_) => to.write_all(b"out of memory"),
    }
}

fn tell_info(info: &Info, to: &mut Vec<u8>) -> io::Result<()> {
    to.write_all(whether(info.id.is_some()))?;
    tell_text(&info.created_by, to)?;
    tell_whether(info.quality.is_some(), to)?;
    tell_whether(info.flip.is_some(), to)?;
    tell_text(&info.top, to)?;
    tell_text(&info.bottom, to)?;
    tell_circuits(info.subs.list(), to)
}

fn tell_circuits(subs: &[SubBoard], to: &mut Vec<u8>) -> io::Result<()> {
    if subs.is_empty() {
        return Ok(());
    }
    let count = subs.len();
    write!(to, " {count} circuits")
}

fn tell_whether(is_told: bool, to: &mut Vec<u8>) -> io::Result<()> {
    to.write_all(b" ")?;
    to.write_all(whether(is_told))
}

fn whether(is_told: bool) -> &'static [u8] {
    if is_told { b"told" } else { b"-" }
}

fn tell_text(text: &Option<Text>, to: &mut Vec<u8>) -> io::Result<()> {
    to.write_all(b" ")?;
    match text {
        Some(text) => to.write_all(text.bytes()),
        None => to.write_all(b"-"),
    }
}
