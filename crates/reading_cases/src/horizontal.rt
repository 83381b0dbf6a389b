//! Horizontal messages: the answer is the canonical text of the message that the bytes spell, read,
//! copied and written, or the reason why they spell none. `no info` is a message of board
//! information that tells nothing.

use crate::told::{append_error, within};
use case_text::spell;
use hermes_horizontal::{Horizontal, Message, Said, no_info, read_horizontal, write_horizontal};
use line_base::Memory;
use std::alloc::Global;
use std::io;

/// Appends a message that a case makes or spells.
pub fn tell(alloc: Global, case: &str, to: &mut Vec<u8>) -> io::Result<()> {
    if case == "no info" {
        return within(append_nothing(alloc, to));
    }
    let mut bytes = Vec::new(alloc);
    spell(case, &mut bytes)?;
    tell_read(alloc, bytes.as_slice(), to)
}

/// Appends what the bytes say.
fn tell_read(alloc: Global, bytes: &[u8], to: &mut Vec<u8>) -> io::Result<()> {
    match read_horizontal(alloc, bytes) {
        Ok(message) => {
            let done = append_copy(alloc, &message, to);
            drop(message);
            within(done)
        }
        Err(error) => within(append_error(alloc, error, to)),
    }
}

/// Appends board information that tells nothing, as a message.
fn append_nothing(alloc: Global, to: &mut Vec<u8>) -> Result<(), Memory> {
    let body = Said::new(alloc, Horizontal::SendBoardInfo(no_info()))?;
    let message = Message { stamp: None, body };
    let done = append_copy(alloc, &message, to);
    drop(message);
    done
}

/// Appends the text of a message's copy.
fn append_copy(alloc: Global, message: &Message, to: &mut Vec<u8>) -> Result<(), Memory> {
    match message.copy(alloc) {
        Ok(copy) => {
            let done = write_horizontal(&copy, to);
            // by name, since at the end of a scope all its parts are let go in this function's goals
            drop(copy);
            done
        }
        Err(Memory) => Err(Memory),
    }
}
