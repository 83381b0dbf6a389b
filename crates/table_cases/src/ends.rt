//! How a handover ends: a case names the part, what the machine saw, and the number of the state
//! that it heard. The answer is its cell.

use line_base::{Seen, Transfer};
use std::io;
use std::io::Write;
use transfer_state::{InEnd, OutEnd, in_ends, out_ends};

/// Appends the cell that a case names.
pub fn tell(case: &str, to: &mut Vec<u8>) -> io::Result<()> {
    to.extend_from_slice(cell(case).as_bytes())?;
    Ok(())
}

fn cell(case: &str) -> &'static str {
    let mut words = case.split(' ');
    let part = words.next().unwrap_or("");
    let own = words.next().unwrap_or("");
    let heard = heard_of(words.next().unwrap_or(""));
    match part {
        "upstream" => out_word(out_ends(own_of(own), heard)),
        "downstream" => in_word(in_ends(seen_of(own), heard)),
        _ => "no case",
    }
}

fn heard_of(word: &str) -> Transfer {
    match word {
        "1" => Transfer::NotStarted,
        "2" => Transfer::Incomplete,
        _ => Transfer::Complete,
    }
}

fn own_of(word: &str) -> Transfer {
    match word {
        "NotStarted" => Transfer::NotStarted,
        "Incomplete" => Transfer::Incomplete,
        _ => Transfer::Complete,
    }
}

fn seen_of(word: &str) -> Seen {
    match word {
        "NotStarted" => Seen::NotStarted,
        "Incomplete" => Seen::Incomplete,
        "Complete" => Seen::Complete,
        _ => Seen::Taken,
    }
}

fn out_word(end: OutEnd) -> &'static str {
    match end {
        OutEnd::Return => "Return",
        OutEnd::Wait => "Wait",
        OutEnd::Finish => "Finish",
    }
}

fn in_word(end: InEnd) -> &'static str {
    match end {
        InEnd::Keep => "Keep",
        InEnd::Drop => "Drop",
        InEnd::Wait => "Wait",
    }
}
