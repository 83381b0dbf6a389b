//! The inputs of the cases, by their words.

use crate::ids::id_of;
use crate::messages;
use hermes_vertical::Question;
use line_base::{Memory, Quality, Side, Text};
use node_core::{Input, SegmentLine};
use std::alloc::Global;
use std::io;

/// Whether a word brings bytes, and at which side.
fn side_of(word: &str) -> Option<(Side, &str)> {
    match word.split_once(':') {
        Some(("in", said)) => Some((Side::Entry, said)),
        Some(("out", said)) => Some((Side::Exit, said)),
        _ => None,
    }
}

/// Appends the bytes that a word brings.
pub fn spell(word: &str, to: &mut Vec<u8>) -> io::Result<()> {
    match side_of(word) {
        Some((_, said)) => messages::spell_all(said, to),
        None => Ok(()),
    }
}

/// The input of a word, with the bytes that it brings.
pub fn input_of<'a>(alloc: Global, word: &str, bytes: &'a [u8]) -> Result<Input<'a>, Memory> {
    match side_of(word) {
        Some((side, _)) => Ok(Input::Bytes(side, bytes)),
        None => plain_input(alloc, word),
    }
}

fn plain_input<'a>(alloc: Global, word: &str) -> Result<Input<'a>, Memory> {
    match word {
        "connect" => Ok(Input::Connect),
        "accepted" => Ok(Input::Accepted),
        "second" => Ok(Input::Second),
        "tick" => Ok(Input::Tick),
        "shutdown" => Ok(Input::Shutdown),
        "insert" => insertion(alloc),
        "forecast" => Ok(Input::Forecast),
        "ask" => query(alloc),
        "supervise.on" => Ok(Input::Supervise(true)),
        "supervise.off" => Ok(Input::Supervise(false)),
        "ask.barcode" => Ok(Input::Ask(Question::Barcode(Text::plain(alloc, b"PCB7")?))),
        "ask.order" => Ok(Input::Ask(Question::Order(Text::plain(alloc, b"WO-12")?))),
        "ask.place" => place(alloc),
        _ => coded_input(alloc, word),
    }
}

/// `coded:1.1` is a circuit more of that board, with a barcode that is escaped in a message.
fn coded_input<'a>(alloc: Global, word: &str) -> Result<Input<'a>, Memory> {
    match word.strip_prefix("coded:") {
        Some(id) => Ok(Input::Sub {
            id: id_of(id),
            pos: 8,
            barcode: Some(Text::plain(alloc, b"A&B")?),
        }),
        None => answered_input(alloc, word),
    }
}

fn place<'a>(alloc: Global) -> Result<Input<'a>, Memory> {
    let magazine = Text::plain(alloc, b"A")?;
    Ok(Input::Ask(Question::Place { magazine, slot: 3 }))
}

/// `answer:3` answers the question of number 3.
fn answered_input<'a>(alloc: Global, word: &str) -> Result<Input<'a>, Memory> {
    match word.strip_prefix("answer:") {
        Some(query) => {
            let order = Text::plain(alloc, b"WO-12")?;
            let query = query.parse().unwrap_or(0);
            Ok(Input::Answer { query, order })
        }
        None => sided_input(word),
    }
}

fn insertion<'a>(alloc: Global) -> Result<Input<'a>, Memory> {
    let barcode = Text::plain(alloc, b"PCB7")?;
    Ok(Input::Insert(Some(barcode)))
}

fn query<'a>(alloc: Global) -> Result<Input<'a>, Memory> {
    let barcode = Text::plain(alloc, b"PCB7")?;
    Ok(Input::Query(barcode))
}

fn sided_input<'a>(word: &str) -> Result<Input<'a>, Memory> {
    Ok(match word {
        "notice.in" => Input::Notice(Side::Entry),
        "notice.out" => Input::Notice(Side::Exit),
        "fault.in" => Input::Fault(Side::Entry),
        "fault.out" => Input::Fault(Side::Exit),
        "hold.in" => Input::Will(Side::Entry, false),
        "hold.out" => Input::Will(Side::Exit, false),
        "go.in" => Input::Will(Side::Entry, true),
        "go.out" => Input::Will(Side::Exit, true),
        _ => level_input(word),
    })
}

fn level_input<'a>(word: &str) -> Input<'a> {
    match word {
        "ready.on" => Input::Level(SegmentLine::Ready, true),
        "ready.off" => Input::Level(SegmentLine::Ready, false),
        "available.on" => Input::Level(SegmentLine::Available, true),
        "available.off" => Input::Level(SegmentLine::Available, false),
        "failed.on" => Input::Level(SegmentLine::Failed, true),
        "failed.off" => Input::Level(SegmentLine::Failed, false),
        _ => input_of_id(word),
    }
}

fn input_of_id<'a>(word: &str) -> Input<'a> {
    match word.split_once(':') {
        Some(("remove", id)) => Input::Remove(id_of(id)),
        Some(("replace", id)) => Input::Replace(id_of(id)),
        Some(("good", id)) => Input::Mark(id_of(id), Quality::Good),
        Some(("failed", id)) => Input::Mark(id_of(id), Quality::Failed),
        Some(("sub", id)) => Input::Sub {
            id: id_of(id),
            pos: 7,
            barcode: None,
        },
        _ => Input::Nothing,
    }
}
