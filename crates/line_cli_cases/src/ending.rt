//! The end alone of what a call writes.

use crate::calls::write_call;
use line_base::{Memory, Words};
use std::alloc::Global;
use std::io::Write;

/// How many lines are shown.
const SHOWN: usize = 3;

/// Appends the last three lines that a call writes, how many stand before them, how many of those
/// tell a cut, and how the call ends.
pub fn tell_ending(
    alloc: Global,
    words: &Words,
    input: &[u8],
    to: &mut Vec<u8>,
) -> Result<(), Memory> {
    let mut written = Vec::new(alloc);
    let status = write_call(alloc, words, input, &mut written)?;
    let lines = written.iter().filter(|byte| **byte == b'\n').count();
    let before = lines.saturating_sub(SHOWN);
    let cuts = tell_from(before, written.as_slice(), to)?;
    match write!(
        to,
        "--- {status:?}, {before} lines before, {cuts} with a cut\n"
    ) {
        Ok(()) => Ok(()),
        Err(_) => Err(Memory),
    }
}

/// Appends the lines behind so many, and counts those before that tell a cut.
fn tell_from(before: usize, written: &[u8], to: &mut Vec<u8>) -> Result<usize, Memory> {
    let mut cuts = 0usize;
    for (place, line) in written.split_inclusive(|byte| *byte == b'\n').enumerate() {
        if before <= place {
            to.extend_from_slice(line)?;
        } else if tells_cut(line) {
            cuts = cuts.saturating_add(1);
        }
    }
    Ok(cuts)
}

/// Whether the word behind a line's number is `cut`.
fn tells_cut(line: &[u8]) -> bool {
    let mut words = line.split(|byte| *byte == b' ');
    let _number = words.next();
    words.next() == Some(b"cut".as_slice())
}
