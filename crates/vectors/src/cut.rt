//! A text as a stream.

use crate::channel::append;
use hermes_stream::{Cut, Cutter};
use line_base::Memory;
use std::alloc::Global;
use std::io::Write;

/// Appends what is cut first of a stream: a message with its length, that one is too long, or that
/// none has ended.
pub fn tell_cut(alloc: Global, stream: &[u8], to: &mut Vec<u8>) -> Result<(), Memory> {
    match Cutter::new(alloc) {
        Ok(mut cutter) => {
            let done = tell_first(&mut cutter, stream, to);
            drop(cutter);
            done
        }
        Err(_) => Err(Memory),
    }
}

fn tell_first(cutter: &mut Cutter, stream: &[u8], to: &mut Vec<u8>) -> Result<(), Memory> {
    let _taken = cutter.feed(stream);
    match cutter.next() {
        Cut::Frame(frame) => tell_length(frame.len(), to),
        Cut::TooLong => append(b"too long", to),
        Cut::NeedMore => append(b"no end", to),
    }
}

fn tell_length(length: usize, to: &mut Vec<u8>) -> Result<(), Memory> {
    match write!(to, "a message of {length} bytes") {
        Ok(()) => Ok(()),
        Err(_) => Err(Memory),
    }
}
