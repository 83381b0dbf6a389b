//! Calls of the program, over sources and sinks in memory.

use crate::narrow::Narrow;
use crate::pieces::Pieces;
use line_base::{Memory, Word, Words};
use line_cli::{Status, line_main};
use line_outside::{MemorySink, MemorySource, Pull, Source, SteadySink, SteadySource};
use std::alloc::Global;
use std::io::Write;

/// How many bytes a sink has room for.
const SINK_BYTES: usize = 1_000_000;

/// The words behind the program's name in a command line.
pub fn words_of(alloc: Global, command: &str) -> Result<Words, Memory> {
    let mut words = Words::new(alloc);
    for word in command.split(' ').skip(1) {
        words.push(Word::of(alloc, word.as_bytes())?)?;
    }
    Ok(words)
}

/// Appends what a call writes and how it ends. The listed pulls and pushes fail, and no others.
pub fn tell_call(
    alloc: Global,
    words: &Words,
    input: &[u8],
    pulls: &[u64],
    pushes: &[u64],
    to: &mut Vec<u8>,
) -> Result<(), Memory> {
    let mut source = MemorySource::new(alloc, input, pulls)?;
    let mut sink = MemorySink::new(alloc, SINK_BYTES, pushes)?;
    let status = line_main(alloc, words, &mut source, &mut sink);
    tell_end(sink.contents(), status, to)
}

/// Appends the same for a source that gives its bytes in pieces of this size.
pub fn tell_call_in_pieces(
    alloc: Global,
    words: &Words,
    input: &[u8],
    size: usize,
    to: &mut Vec<u8>,
) -> Result<(), Memory> {
    let mut source = Pieces { rest: input, size };
    let mut sink = SteadySink::new(alloc, SINK_BYTES)?;
    let status = line_main(alloc, words, &mut source, &mut sink);
    tell_end(sink.contents(), status, to)
}

/// Appends what a call writes, however much, and answers how it ends.
pub fn write_call(
    alloc: Global,
    words: &Words,
    input: &[u8],
    to: &mut Vec<u8>,
) -> Result<Status, Memory> {
    let mut source = SteadySource::new(alloc, input)?;
    let mut sink = Narrow::new(alloc, SINK_BYTES, 0);
    let status = line_main(alloc, words, &mut source, &mut sink);
    to.extend_from_slice(sink.bytes())?;
    Ok(status)
}

fn tell_end(contents: Option<&[u8]>, status: Status, to: &mut Vec<u8>) -> Result<(), Memory> {
    to.extend_from_slice(contents.unwrap_or(b"untold"))?;
    match write!(to, "--- {status:?}\n") {
        Ok(()) => Ok(()),
        Err(_) => Err(Memory),
    }
}

/// How many bytes, up to 100, the source still gives behind a call.
pub fn count_unread(alloc: Global, words: &Words, input: &[u8]) -> Result<usize, Memory> {
    let mut source = SteadySource::new(alloc, input)?;
    let mut sink = SteadySink::new(alloc, SINK_BYTES)?;
    let _status = line_main(alloc, words, &mut source, &mut sink);
    let mut room = [0u8; 100];
    match source.pull(room.as_mut_slice()) {
        Pull::Bytes(count) => Ok(count),
        Pull::End => Ok(0),
        Pull::Failed => Ok(0),
    }
}
