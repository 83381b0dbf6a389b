//! The cut of a stream: a case says how the stream is fed to a cutter, and spells its bytes.
//! `pieces A B` feeds it in pieces of each length from A to B; `turned A B` feeds it whole to
//! cutters whose ring ends so many bytes behind its first, from A to B. The answer says in how many
//! of these ways the cutter says the same as in the first.

ghost use Rattle.std.specs.Prelude.{◌<◌};

use case_text::spell;
use hermes_stream::{Cut, Cutter, MOST_MESSAGE_BYTES};
use std::alloc::Global;
use std::io;
use std::io::{ErrorKind, Write};

/// A frame of more bytes is told by its length.
const MOST_TOLD: usize = 400;

const END_TAG: &[u8] = b"</Hermes>";

/// Appends what is cut.
pub fn tell(alloc: Global, case: &str, to: &mut Vec<u8>) -> io::Result<()> {
    match case.split_once(' ') {
        Some(("pieces", rest)) => tell_ways(alloc, false, rest, to),
        Some(("turned", rest)) => tell_ways(alloc, true, rest, to),
        _ => write!(to, "no case"),
    }
}

/// Appends what is cut in each of the ways that a case names.
fn tell_ways(alloc: Global, turned: bool, case: &str, to: &mut Vec<u8>) -> io::Result<()> {
    let (first, rest) = case.split_once(' ').unwrap_or(("", ""));
    let (last, text) = rest.split_once(' ').unwrap_or(("", ""));
    let mut bytes = Vec::new(alloc);
    spell(text, &mut bytes)?;
    let first = first.parse().unwrap_or(1usize);
    let last = last.parse().unwrap_or(1usize);
    let mut said = Vec::new(alloc);
    tell_way(alloc, turned, first, bytes.as_slice(), &mut said)?;
    let mut same = 0u64;
    for number in first..=last {
        if says(alloc, turned, number, bytes.as_slice(), said.as_slice())? {
            same = same.saturating_add(1);
        }
    }
    write!(to, "{same} times ")?;
    to.extend_from_slice(said.as_slice())?;
    Ok(())
}

/// Whether this is what is cut in one way.
fn says(alloc: Global, turned: bool, number: usize, bytes: &[u8], said: &[u8]) -> io::Result<bool> {
    let mut other = Vec::new(alloc);
    tell_way(alloc, turned, number, bytes, &mut other)?;
    Ok(other.as_slice() == said)
}

/// Appends what is cut in one way.
fn tell_way(
    alloc: Global,
    turned: bool,
    number: usize,
    bytes: &[u8],
    to: &mut Vec<u8>,
) -> io::Result<()> {
    match Cutter::new(alloc) {
        Ok(mut cutter) => {
            let done = tell_by(alloc, &mut cutter, turned, number, bytes, to);
            // by name, since at the end of a scope all its parts are let go in this function's goals
            drop(cutter);
            done
        }
        Err(_) => Err(io::Error::from(ErrorKind::OutOfMemory)),
    }
}

/// Appends what a cutter cuts in one way.
fn tell_by(
    alloc: Global,
    cutter: &mut Cutter,
    turned: bool,
    number: usize,
    bytes: &[u8],
    to: &mut Vec<u8>,
) -> io::Result<()> {
    if turned {
        turn(alloc, cutter, number)?;
        tell_piece(cutter, bytes, to)?;
    } else {
        tell_pieces(cutter, bytes, number.max(1), to)?;
    }
    tell_rest(cutter, to)
}

/// Cuts a message that ends so many bytes before the end of the ring.
fn turn(alloc: Global, cutter: &mut Cutter, number: usize) -> io::Result<()> {
    let mut message = Vec::new(alloc);
    let count = MOST_MESSAGE_BYTES.saturating_sub(number);
    message.resize(count.saturating_sub(END_TAG.len()), b'x')?;
    message.extend_from_slice(END_TAG)?;
    cutter.feed(message.as_slice());
    let _cut = cutter.next();
    Ok(())
}

/// Appends the frames of a stream that comes in pieces of this size.
fn tell_pieces(cutter: &mut Cutter, bytes: &[u8], size: usize, to: &mut Vec<u8>) -> io::Result<()>
    requires { 0 < size }
{
    for piece in bytes.chunks(size) {
        tell_piece(cutter, piece, to)?;
    }
    Ok(())
}

/// Appends the frames that end in a piece.
fn tell_piece(cutter: &mut Cutter, piece: &[u8], to: &mut Vec<u8>) -> io::Result<()> {
    let mut rest = piece;
    for _ in 0..u64::MAX {
        let count = cutter.feed(rest);
        rest = behind(rest, count);
        match cutter.next() {
            Cut::Frame(frame) => tell_frame(frame, to)?,
            Cut::NeedMore => {
                if rest.is_empty() {
                    break;
                }
            }
            Cut::TooLong => break,
        }
    }
    Ok(())
}

fn behind(bytes: &[u8], count: usize) -> &[u8] {
    if count < bytes.len() {
        &bytes[count..]
    } else {
        &[]
    }
}

/// Appends a frame, its other bytes than those of printed ASCII by their two digits.
fn tell_frame(frame: &[u8], to: &mut Vec<u8>) -> io::Result<()> {
    if frame.len() > MOST_TOLD {
        let count = frame.len();
        return write!(to, "({count} bytes) ");
    }
    to.push(b'(')?;
    for byte in frame {
        match *byte {
            b' '..=b'~' => to.push(*byte)?,
            other => write!(to, "\\{other:02X}")?,
        }
    }
    to.extend_from_slice(b") ")?;
    Ok(())
}

/// Appends what waits. Too many bytes stay so, whatever is fed.
fn tell_rest(cutter: &mut Cutter, to: &mut Vec<u8>) -> io::Result<()> {
    let waiting = cutter.waiting();
    let taken = match cutter.next() {
        Cut::TooLong => cutter.feed(END_TAG),
        _ => return write!(to, "rest {waiting}"),
    };
    match cutter.next() {
        Cut::TooLong => write!(to, "too long, {taken} more taken"),
        _ => write!(to, "not too long for good"),
    }
}
