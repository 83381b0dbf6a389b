//! Cases of the restart book, a line each. `entry`, `cuts` and `changes` have bytes: the entry that
//! they begin with, what each front of them is, and what becomes of them by each change of one byte.
//! `resume`, `cut` and `changed` have a book: the machine that begins again from it, from each front
//! of it, and from it with each change of one byte. `log` has the log that it tells. `keep` has the room of a book in memory, the
//! number of a call that fails, and the bytes that are kept one after another.
#![tactic(auto)]

mod books;
mod entries;
mod keeps;
mod logs;

use crate::books::{tell_changed, tell_cut, tell_resumed};
use crate::entries::{tell_changes, tell_cuts, tell_entry};
use crate::keeps::tell_kept;
use crate::logs::tell_logged;
use std::alloc::{AllocError, Global};
use std::io;
use std::io::Write;

fn main(rt: HostRuntime) -> io::Result<()> {
    let mut out = rt.stdout();
    for line in rt.lines(rt.alloc()) {
        let line = line?;
        let mut said = Vec::new(rt.alloc());
        said.extend_from_slice(line.as_str().as_bytes())?;
        said.extend_from_slice(b" = ")?;
        tell(rt.alloc(), line.as_str(), &mut said)?;
        said.extend_from_slice(b"\n")?;
        out.write_all(said.as_slice())?;
    }
    Ok(())
}

fn tell(alloc: Global, line: &str, to: &mut Vec<u8>) -> io::Result<()> {
    match line.split_once(' ') {
        Some(("keep", words)) => tell_kept(alloc, words, to),
        Some((word, digits)) => match bytes_of(alloc, digits)? {
            Some(bytes) => tell_bytes(alloc, word, bytes.as_slice(), to),
            None => write!(to, "no case"),
        },
        None => write!(to, "no case"),
    }
}

fn tell_bytes(alloc: Global, word: &str, bytes: &[u8], to: &mut Vec<u8>) -> io::Result<()> {
    match word {
        "entry" => tell_entry(alloc, bytes, to),
        "cuts" => tell_cuts(alloc, bytes, to),
        "changes" => tell_changes(alloc, bytes, to),
        "resume" => tell_resumed(alloc, bytes, to),
        "cut" => tell_cut(alloc, bytes, to),
        "changed" => tell_changed(alloc, bytes, to),
        "log" => tell_logged(alloc, bytes, to),
        _ => write!(to, "no case"),
    }
}

/// The bytes of hexadecimal digits; `-` is none.
pub fn bytes_of(alloc: Global, digits: &str) -> Result<Option<Vec<u8>>, AllocError> {
    if digits == "-" {
        return Ok(Some(Vec::new(alloc)));
    }
    match hex::decode(alloc, digits) {
        Ok(bytes) => Ok(Some(bytes)),
        Err(hex::FromHexError::OutOfMemory) => Err(AllocError),
        Err(_) => Ok(None),
    }
}
