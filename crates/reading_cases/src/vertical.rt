//! Supervisory messages: the answer is the canonical text of the message that the bytes spell,
//! read, copied and written, or the reason why they spell none.

use crate::told::{append_error, within};
use case_text::spell;
use hermes_vertical::{VerticalMessage, read_vertical, write_vertical};
use line_base::Memory;
use std::alloc::Global;
use std::io;

/// Appends the message that a case spells.
pub fn tell(alloc: Global, case: &str, to: &mut Vec<u8>) -> io::Result<()> {
    let mut bytes = Vec::new(alloc);
    spell(case, &mut bytes)?;
    tell_read(alloc, bytes.as_slice(), to)
}

/// Appends what the bytes say.
fn tell_read(alloc: Global, bytes: &[u8], to: &mut Vec<u8>) -> io::Result<()> {
    match read_vertical(alloc, bytes) {
        Ok(message) => {
            let done = append_copy(alloc, &message, to);
            drop(message);
            within(done)
        }
        Err(error) => within(append_error(alloc, error, to)),
    }
}

/// Appends the text of a message's copy.
fn append_copy(alloc: Global, message: &VerticalMessage, to: &mut Vec<u8>) -> Result<(), Memory> {
    match message.copy(alloc) {
        Ok(copy) => {
            let done = write_vertical(&copy, to);
            // by name, since at the end of a scope all its parts are let go in this function's goals
            drop(copy);
            done
        }
        Err(Memory) => Err(Memory),
    }
}
