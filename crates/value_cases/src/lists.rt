use board_record::{BoardId, Kept, Record, SubBoard};
use line_base::{Memory, Quality, Text};
use std::alloc::{AllocError, Global};
use std::str;

/// What the last of the words answers, done in order on an empty list, and the list after them.
pub fn answer(alloc: Global, words: &str) -> Result<String, AllocError> {
    let mut kept = Kept::new(alloc);
    let said = after(alloc, &mut kept, words);
    drop(kept);
    said
}

fn after(alloc: Global, kept: &mut Kept, words: &str) -> Result<String, AllocError> {
    let mut said = String::new(alloc);
    for word in words.split(' ') {
        said = step(alloc, kept, word)?;
    }
    listed(alloc, said.as_str(), kept.list())
}

fn listed(alloc: Global, said: &str, boards: &[Record]) -> Result<String, AllocError> {
    let mut text = format!(in alloc; "{said};")?;
    tell_each(boards, &mut text)?;
    Ok(text)
}

fn tell_each(boards: &[Record], to: &mut String) -> Result<(), AllocError> {
    for board in boards {
        to.push_str(" ")?;
        tell(board, to)?;
    }
    Ok(())
}

/// A board by the number of its id, with how many sub boards it has, or a mark where it failed.
fn told(alloc: Global, board: &Record) -> Result<String, AllocError> {
    let mut text = String::new(alloc);
    tell(board, &mut text)?;
    Ok(text)
}

fn tell(board: &Record, to: &mut String) -> Result<(), AllocError> {
    write!(to, "{}", board.id.number())?;
    tell_mark(board, to)
}

fn tell_mark(board: &Record, to: &mut String) -> Result<(), AllocError> {
    let subs = board.subs.list().len();
    if subs > 0 {
        return write!(to, "+{subs}");
    }
    match board.quality {
        Quality::Failed => to.push_str("!"),
        _ => Ok(()),
    }
}

fn step(alloc: Global, kept: &mut Kept, word: &str) -> Result<String, AllocError> {
    match word.split_once(':') {
        Some((what, numbers)) => numbered(alloc, kept, what, numbers),
        None => popped(alloc, kept),
    }
}

fn popped(alloc: Global, kept: &mut Kept) -> Result<String, AllocError> {
    match kept.pop_front() {
        Some(board) => taken(alloc, board),
        None => String::from_str(alloc, "none"),
    }
}

fn numbered(
    alloc: Global,
    kept: &mut Kept,
    what: &str,
    numbers: &str,
) -> Result<String, AllocError> {
    if what == "back" {
        return pushed_back(alloc, kept, number_of(numbers));
    }
    if what == "front" {
        return pushed_front(alloc, kept, number_of(numbers));
    }
    if what == "place" {
        return found(alloc, kept.place_of(BoardId::of(number_of(numbers))));
    }
    if what == "replace" {
        return match numbers.split_once(':') {
            Some((place, number)) => replaced(alloc, kept, place_of(place), number_of(number)),
            None => String::from_str(alloc, "no case"),
        };
    }
    placed(alloc, kept, what, place_of(numbers))
}

/// The place at which a board was found.
fn found(alloc: Global, place: Option<usize>) -> Result<String, AllocError> {
    match place {
        Some(place) => format!(in alloc; "at {place}"),
        None => String::from_str(alloc, "nowhere"),
    }
}

fn number_of(word: &str) -> u128 {
    word.parse().unwrap_or(0)
}

fn place_of(word: &str) -> usize {
    word.parse().unwrap_or(0)
}

fn placed(alloc: Global, kept: &mut Kept, what: &str, place: usize) -> Result<String, AllocError> {
    if place >= kept.list().len() {
        return String::from_str(alloc, "no place");
    }
    if what == "take" {
        return taken(alloc, kept.take(place));
    }
    if what == "failed" {
        kept.set_quality(place, Quality::Failed);
        return String::from_str(alloc, "failed");
    }
    if what == "sub" {
        return given_sub(alloc, kept, place);
    }
    copied(alloc, &kept.list()[place])
}

fn taken(alloc: Global, board: Record) -> Result<String, AllocError> {
    let said = told(alloc, &board);
    drop(board);
    said
}

/// Gives the board at a place one sub board more.
fn given_sub(alloc: Global, kept: &mut Kept, place: usize) -> Result<String, AllocError> {
    if place >= kept.list().len() {
        return String::from_str(alloc, "no place");
    }
    let sub = SubBoard {
        pos: 7,
        barcode: None,
        state: Quality::Failed,
    };
    match kept.push_sub(place, sub) {
        Ok(()) => String::from_str(alloc, "given"),
        Err(_) => Err(AllocError),
    }
}

fn pushed_back(alloc: Global, kept: &mut Kept, number: u128) -> Result<String, AllocError> {
    let Ok(board) = board(alloc, number) else {
        return Err(AllocError);
    };
    if kept.reserve_one().is_err() {
        drop(board);
        return Err(AllocError);
    }
    kept.push_back(board);
    String::from_str(alloc, "pushed")
}

fn pushed_front(alloc: Global, kept: &mut Kept, number: u128) -> Result<String, AllocError> {
    let Ok(board) = board(alloc, number) else {
        return Err(AllocError);
    };
    if kept.reserve_one().is_err() {
        drop(board);
        return Err(AllocError);
    }
    kept.push_front(board);
    String::from_str(alloc, "pushed")
}

fn replaced(
    alloc: Global,
    kept: &mut Kept,
    place: usize,
    number: u128,
) -> Result<String, AllocError> {
    if place >= kept.list().len() {
        return String::from_str(alloc, "no place");
    }
    let Ok(board) = board(alloc, number) else {
        return Err(AllocError);
    };
    let before = kept.replace(place, board);
    taken(alloc, before)
}

fn board(alloc: Global, number: u128) -> Result<Record, Memory> {
    let maker = Text::plain(alloc, b"M1")?;
    let barcode = Text::plain(alloc, b"PCB-7")?;
    Ok(Record::plain(BoardId::of(number), maker, Some(barcode)))
}

/// Tells whether a board's copy is equal to it, and the copy's barcode.
fn copied(alloc: Global, board: &Record) -> Result<String, AllocError> {
    match board.copy(alloc) {
        Ok(copy) => {
            let said = compared(alloc, &copy, board);
            drop(copy);
            said
        }
        Err(_) => Err(AllocError),
    }
}

fn compared(alloc: Global, copy: &Record, board: &Record) -> Result<String, AllocError> {
    if copy != board {
        return String::from_str(alloc, "another board");
    }
    let barcode = barcode_of(copy);
    format!(in alloc; "equal, {barcode}")
}

fn barcode_of(board: &Record) -> &str {
    match &board.top {
        Some(text) => str::from_utf8(text.bytes()).unwrap_or("no text"),
        None => "no barcode",
    }
}
