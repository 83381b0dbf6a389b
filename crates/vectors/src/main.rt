//! Messages and their limits as a table of tests, over both channels: each line of stdin spells a
//! text, and is written again with what the readers and the cut of a stream make of it.
#![tactic(auto)]

mod channel;
mod cut;
mod vector;

use crate::channel::Channel;
use crate::cut::tell_cut;
use crate::vector::tell_vector;
use case_text::spell;
use line_base::Memory;
use std::alloc::Global;
use std::io;
use std::io::{ErrorKind, Write};

fn main(rt: HostRuntime) -> io::Result<()> {
    let mut out = io::writer(&rt);
    for case in rt.lines(rt.alloc()) {
        let case = case?;
        let mut said = Vec::new(rt.alloc());
        tell_case(rt.alloc(), case.as_str(), &mut said)?;
        out.write_all(said.as_slice())?;
    }
    Ok(())
}

/// Appends a case with its answer. Its first word says what is asked of the text behind it:
/// `horizontal` or `supervisory` whether it is a canonical text of that channel, and what becomes
/// of it where it is cut off or spoiled; `limit-horizontal` or `limit-supervisory` whether that
/// channel's reader reads it; `cut` whether it is one message of a stream.
fn tell_case(alloc: Global, case: &str, to: &mut Vec<u8>) -> io::Result<()> {
    let (asked, spelled) = case.split_once(' ').unwrap_or((case, ""));
    let mut text = Vec::new(alloc);
    spell(spelled, &mut text)?;
    write!(to, "{case} = ")?;
    within(tell(alloc, asked, text.as_slice(), to))?;
    writeln!(to)
}

/// Appends the answer.
fn tell(alloc: Global, asked: &str, text: &[u8], to: &mut Vec<u8>) -> Result<(), Memory> {
    match asked {
        "horizontal" => tell_vector(alloc, Channel::Horizontal, text, to),
        "supervisory" => tell_vector(alloc, Channel::Supervisory, text, to),
        "limit-horizontal" => Channel::Horizontal.tell_limit(alloc, text, to),
        "limit-supervisory" => Channel::Supervisory.tell_limit(alloc, text, to),
        _ => tell_cut(alloc, text, to),
    }
}

fn within(done: Result<(), Memory>) -> io::Result<()> {
    match done {
        Ok(()) => Ok(()),
        Err(Memory) => Err(io::Error::from(ErrorKind::OutOfMemory)),
    }
}
