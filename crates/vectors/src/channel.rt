//! What a channel's reader makes of bytes.

use hermes_horizontal::{Message, MessageError, read_horizontal, write_horizontal};
use hermes_vertical::{VerticalMessage, read_vertical, write_vertical};
use line_base::Memory;
use std::alloc::Global;

/// Between which ends messages go.
#[derive(Clone, Copy, Debug, PartialEq, Eq)]
pub enum Channel {
    /// Two machines.
    Horizontal,
    /// A machine and its supervisor.
    Supervisory,
}

impl Channel {
    /// Appends the canonical text of the message that the bytes spell, or why they spell none.
    pub fn tell(self, alloc: Global, bytes: &[u8], to: &mut Vec<u8>) -> Result<(), Memory> {
        match self {
            Channel::Horizontal => tell_horizontal(alloc, bytes, to),
            Channel::Supervisory => tell_supervisory(alloc, bytes, to),
        }
    }

    /// Appends that the bytes spell a message, or why they spell none.
    pub fn tell_limit(self, alloc: Global, bytes: &[u8], to: &mut Vec<u8>) -> Result<(), Memory> {
        let mut said = Vec::new(alloc);
        self.tell(alloc, bytes, &mut said)?;
        if said.starts_with(b"refused") {
            return append(said.as_slice(), to);
        }
        append(b"read", to)
    }
}

fn tell_horizontal(alloc: Global, bytes: &[u8], to: &mut Vec<u8>) -> Result<(), Memory> {
    match read_horizontal(alloc, bytes) {
        Ok(message) => {
            let done = write_message(&message, to);
            drop(message);
            done
        }
        Err(error) => tell_refusal(alloc, error, to),
    }
}

fn write_message(message: &Message, to: &mut Vec<u8>) -> Result<(), Memory> {
    write_horizontal(message, to)
}

fn tell_supervisory(alloc: Global, bytes: &[u8], to: &mut Vec<u8>) -> Result<(), Memory> {
    match read_vertical(alloc, bytes) {
        Ok(message) => {
            let done = write_supervisory(&message, to);
            drop(message);
            done
        }
        Err(error) => tell_refusal(alloc, error, to),
    }
}

fn write_supervisory(message: &VerticalMessage, to: &mut Vec<u8>) -> Result<(), Memory> {
    write_vertical(message, to)
}

/// Appends why bytes spell no message.
fn tell_refusal(alloc: Global, error: MessageError, to: &mut Vec<u8>) -> Result<(), Memory> {
    match error {
        MessageError::Refused { at, why } => {
            let text = why.text(alloc, at)?;
            append(b"refused: ", to)?;
            append(text.bytes(), to)
        }
        MessageError::Memory => Err(Memory),
    }
}

/// Appends bytes.
pub fn append(bytes: &[u8], to: &mut Vec<u8>) -> Result<(), Memory> {
    match to.extend_from_slice(bytes) {
        Ok(()) => Ok(()),
        Err(_) => Err(Memory),
    }
}
