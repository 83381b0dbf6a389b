//! Each pull and each push of a call failing in turn.

use crate::lines::Lines;
use crate::narrow::Narrow;
use line_base::{Memory, Words};
use line_cli::{Status, line_main};
use std::alloc::Global;
use std::io::Write;

/// How many calls are let fail at most.
const MOST_CALLS: u64 = 1000;

/// How many bytes a push takes.
const TAKEN: usize = 64;

/// Appends how the call ends where the first pull fails, the second, and so on, up to the call in
/// which none does: from a source that gives a line at each pull.
pub fn tell_pulls(
    alloc: Global,
    words: &Words,
    input: &[u8],
    to: &mut Vec<u8>,
) -> Result<(), Memory> {
    let mut whole = Vec::new(alloc);
    let _status = call(alloc, words, input, 0, 0, &mut whole)?;
    for failing in 1..MOST_CALLS {
        let mut written = Vec::new(alloc);
        let status = call(alloc, words, input, failing, 0, &mut written)?;
        tell_fault(
            "pull",
            failing,
            status,
            written.as_slice(),
            whole.as_slice(),
            to,
        )?;
        if status != Status::ReadFault {
            return Ok(());
        }
    }
    Ok(())
}

/// Appends how the call ends where the first push fails, the second, and so on, up to the call in
/// which none does: into a sink that takes 64 bytes at each push.
pub fn tell_pushes(
    alloc: Global,
    words: &Words,
    input: &[u8],
    to: &mut Vec<u8>,
) -> Result<(), Memory> {
    let mut whole = Vec::new(alloc);
    let _status = call(alloc, words, input, 0, 0, &mut whole)?;
    for failing in 1..MOST_CALLS {
        let mut written = Vec::new(alloc);
        let status = call(alloc, words, input, 0, failing, &mut written)?;
        tell_fault(
            "push",
            failing,
            status,
            written.as_slice(),
            whole.as_slice(),
            to,
        )?;
        if status != Status::WriteFault {
            return Ok(());
        }
    }
    Ok(())
}

/// Makes the call, of which this pull and this push fail, none where the number is 0. Appends what
/// is written, and answers how it ends.
fn call(
    alloc: Global,
    words: &Words,
    input: &[u8],
    failing_pull: u64,
    failing_push: u64,
    to: &mut Vec<u8>,
) -> Result<Status, Memory> {
    let mut source = Lines::new(input, failing_pull);
    let mut sink = Narrow::new(alloc, TAKEN, failing_push);
    let status = line_main(alloc, words, &mut source, &mut sink);
    to.extend_from_slice(sink.bytes())?;
    Ok(status)
}

/// Appends how a call ended, and how many lines and bytes it wrote: a front of what is written
/// where no call fails.
fn tell_fault(
    what: &str,
    number: u64,
    status: Status,
    written: &[u8],
    whole: &[u8],
    to: &mut Vec<u8>,
) -> Result<(), Memory> {
    let lines = written.iter().filter(|byte| **byte == b'\n').count();
    let bytes = written.len();
    let what_of = if whole.starts_with(written) {
        "a front"
    } else {
        "no front"
    };
    match write!(
        to,
        "{what} {number}: {status:?}, {what_of} of {lines} lines, {bytes} bytes\n"
    ) {
        Ok(()) => Ok(()),
        Err(_) => Err(Memory),
    }
}
