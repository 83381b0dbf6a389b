//! What the two ends of a segment answer.

use smema_signals::{Edges, Giver, Levels, Taker};
use std::io;
use std::io::Write;

/// Appends the edges of the last call of a giver, and its levels.
pub fn tell_giver(case: &str, to: &mut Vec<u8>) -> io::Result<()> {
    let mut giver = Giver::new();
    let mut last = Edges {
        first: None,
        second: None,
    };
    for word in case.split_whitespace() {
        match word {
            "good" => last = giver.offer(false),
            "failed" => last = giver.offer(true),
            "left" => last = giver.left(),
            _ => {}
        }
    }
    tell(last, giver.levels(), to)
}

/// Appends the edges of the last call of a taker, and its levels.
pub fn tell_taker(case: &str, to: &mut Vec<u8>) -> io::Result<()> {
    let mut taker = Taker::new();
    let mut last = Edges {
        first: None,
        second: None,
    };
    for word in case.split_whitespace() {
        match word {
            "free" => last = taker.free(),
            "full" => last = taker.full(),
            _ => {}
        }
    }
    tell(last, taker.levels(), to)
}

fn tell(edges: Edges, levels: Levels, to: &mut Vec<u8>) -> io::Result<()> {
    let first = edge_word(edges.first);
    let second = edge_word(edges.second);
    write!(to, "{first} {second} levels")?;
    let first = level_word(levels.first);
    let second = level_word(levels.second);
    write!(to, " {first} {second}")
}

/// An edge as the level to which it leads, and `-` where there is none.
pub fn edge_word(edge: Option<bool>) -> &'static str {
    match edge {
        Some(level) => level_word(level),
        None => "-",
    }
}

pub fn level_word(level: bool) -> &'static str {
    if level { "on" } else { "off" }
}
