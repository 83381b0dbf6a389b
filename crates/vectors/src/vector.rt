//! A canonical text: read and written it is itself, and no text that is cut off or spoiled is
//! read.

ghost use Rattle.std.specs.Prelude.{◌≤◌, length};

use crate::channel::{Channel, append};
use line_base::Memory;
use std::alloc::Global;
use std::io::Write;

/// Appends whether a text is the canonical one of the message that it spells; whether each of its
/// proper fronts is refused as not ended, at its length; and whether a NUL byte that is put in at
/// each of its bytes is refused there as no character. What is said otherwise stands in the
/// answer.
pub fn tell_vector(
    alloc: Global,
    channel: Channel,
    text: &[u8],
    to: &mut Vec<u8>,
) -> Result<(), Memory> {
    tell_itself(alloc, channel, text, to)?;
    let mut unended: usize = 0;
    let mut spoiled: usize = 0;
    for at in 0..text.len() {
        unended = unended.saturating_add(tell_front(alloc, channel, text, at, to)?);
        spoiled = spoiled.saturating_add(tell_nul(alloc, channel, text, at, to)?);
    }
    tell_count("unended", unended, to)?;
    tell_count("with a NUL", spoiled, to)
}

/// Appends that a text is read and written again as itself, or else what is written.
fn tell_itself(
    alloc: Global,
    channel: Channel,
    text: &[u8],
    to: &mut Vec<u8>,
) -> Result<(), Memory> {
    let mut said = Vec::new(alloc);
    channel.tell(alloc, text, &mut said)?;
    if said.as_slice() == text {
        return append(b"itself", to);
    }
    append(said.as_slice(), to)
}

/// How many of one front are refused as they must be; appends what is said of it else.
fn tell_front(
    alloc: Global,
    channel: Channel,
    text: &[u8],
    at: usize,
    to: &mut Vec<u8>,
) -> Result<usize, Memory>
    requires { at ≤ length text.now }
{
    let mut wanted = Vec::new(alloc);
    written(write!(wanted, "refused: unended at {at}"))?;
    tell_other(alloc, channel, &text[..at], wanted.as_slice(), to)
}

/// How many of one text with a NUL byte put in are refused as they must be; appends what is said
/// of it else.
fn tell_nul(
    alloc: Global,
    channel: Channel,
    text: &[u8],
    at: usize,
    to: &mut Vec<u8>,
) -> Result<usize, Memory>
    requires { at ≤ length text.now }
{
    let mut bytes = Vec::new(alloc);
    append(&text[..at], &mut bytes)?;
    append(b"\0", &mut bytes)?;
    append(&text[at..], &mut bytes)?;
    let mut wanted = Vec::new(alloc);
    written(write!(wanted, "refused: character at {at}"))?;
    tell_other(alloc, channel, bytes.as_slice(), wanted.as_slice(), to)
}

/// 1 where what is said of the bytes is what is wanted; else 0, and what is said is appended.
fn tell_other(
    alloc: Global,
    channel: Channel,
    bytes: &[u8],
    wanted: &[u8],
    to: &mut Vec<u8>,
) -> Result<usize, Memory> {
    let mut said = Vec::new(alloc);
    channel.tell(alloc, bytes, &mut said)?;
    if said.as_slice() == wanted {
        return Ok(1);
    }
    append(b", in place of ", to)?;
    append(wanted, to)?;
    append(b" ", to)?;
    append(said.as_slice(), to)?;
    Ok(0)
}

fn tell_count(what: &str, count: usize, to: &mut Vec<u8>) -> Result<(), Memory> {
    written(write!(to, ", {count} {what}"))
}

fn written<E: Drop>(done: Result<(), E>) -> Result<(), Memory> {
    match done {
        Ok(()) => Ok(()),
        Err(_) => Err(Memory),
    }
}
