//! What a bridge answers.

use crate::signals::ends::{edge_word, level_word};
use board_record::BoardId;
use line_base::Quality;
use smema_bridge::{Bridge, BridgeEdges, SegmentLine};
use std::io;
use std::io::Write;

/// Appends what the last call of a bridge answers, and its three views. The front board is 7; `touched`,
/// `untouched` and `empty` say how it stands from then on.
pub fn tell(case: &str, to: &mut Vec<u8>) -> io::Result<()> {
    let mut bridge = Bridge::new();
    let mut is_there = true;
    let mut touched = false;
    let begin = to.len();
    for word in case.split_whitespace() {
        match word {
            "touched" => touched = true,
            "untouched" => touched = false,
            "empty" => is_there = false,
            _ => {
                to.truncate(begin);
                call(&mut bridge, word, is_there, touched, to)?;
            }
        }
    }
    let wants_in = level_word(bridge.wants_in());
    let wants_out = level_word(bridge.wants_out());
    let failed = level_word(bridge.failed());
    write!(to, "wants {wants_in} {wants_out} {failed}")
}

fn call(
    bridge: &mut Bridge,
    word: &str,
    is_there: bool,
    touched: bool,
    to: &mut Vec<u8>,
) -> io::Result<()> {
    match level_of(word) {
        Some((line, on)) => tell_board(bridge.level(line, on, front(is_there), touched), to),
        None => match word {
            "idle" => tell_edges(bridge.settle(None, false), to),
            "taking-good" => tell_edges(bridge.settle(Some(Quality::Good), false), to),
            "taking-unknown" => tell_edges(bridge.settle(Some(Quality::Unknown), false), to),
            "taking-failed" => tell_edges(bridge.settle(Some(Quality::Failed), false), to),
            "moving" => tell_edges(bridge.settle(None, true), to),
            "both" => tell_edges(bridge.settle(Some(Quality::Failed), true), to),
            _ => write!(to, ""),
        },
    }
}

fn front(is_there: bool) -> Option<BoardId> {
    if is_there { Some(BoardId::of(7)) } else { None }
}

fn level_of(word: &str) -> Option<(SegmentLine, bool)> {
    match word {
        "ready-on" => Some((SegmentLine::Ready, true)),
        "ready-off" => Some((SegmentLine::Ready, false)),
        "available-on" => Some((SegmentLine::Available, true)),
        "available-off" => Some((SegmentLine::Available, false)),
        "failed-on" => Some((SegmentLine::Failed, true)),
        "failed-off" => Some((SegmentLine::Failed, false)),
        _ => None,
    }
}

fn tell_board(board: Option<BoardId>, to: &mut Vec<u8>) -> io::Result<()> {
    match board {
        Some(id) => {
            let number = id.number();
            write!(to, "marks {number} ")
        }
        None => write!(to, "marks nothing "),
    }
}

fn tell_edges(edges: BridgeEdges, to: &mut Vec<u8>) -> io::Result<()> {
    let available = edge_word(edges.available);
    let failed = edge_word(edges.failed);
    let ready = edge_word(edges.ready);
    write!(to, "{available} {failed} {ready} ")
}
