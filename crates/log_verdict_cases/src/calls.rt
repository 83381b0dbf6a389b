//! Checks over sources and sinks in memory.

use crate::pieces::Pieces;
use line_base::Memory;
use line_outside::{MemorySink, MemorySource, SteadySink};
use log_verdict::{Checked, check_log};
use std::alloc::Global;
use std::io::Write;

/// How many bytes a sink has room for.
const SINK_BYTES: usize = 1000;

/// Appends what a check writes and how it ends. The listed pulls and pushes fail, and no others.
pub fn tell_call(
    alloc: Global,
    log: &[u8],
    pulls: &[u64],
    pushes: &[u64],
    to: &mut Vec<u8>,
) -> Result<(), Memory> {
    let mut source = MemorySource::new(alloc, log, pulls)?;
    let mut sink = MemorySink::new(alloc, SINK_BYTES, pushes)?;
    let checked = check_log(alloc, &mut source, &mut sink);
    tell_end(sink.contents(), checked, to)
}

/// Appends the same for a source that gives its bytes in pieces of this size.
pub fn tell_call_in_pieces(
    alloc: Global,
    log: &[u8],
    size: usize,
    to: &mut Vec<u8>,
) -> Result<(), Memory> {
    let mut source = Pieces { rest: log, size };
    let mut sink = SteadySink::new(alloc, SINK_BYTES)?;
    let checked = check_log(alloc, &mut source, &mut sink);
    tell_end(sink.contents(), checked, to)
}

fn tell_end(contents: Option<&[u8]>, checked: Checked, to: &mut Vec<u8>) -> Result<(), Memory> {
    to.extend_from_slice(contents.unwrap_or(b"untold"))?;
    match write!(to, "--- {checked:?}\n") {
        Ok(()) => Ok(()),
        Err(_) => Err(Memory),
    }
}
