//! How a refused message is told, and want of memory.

use hermes_horizontal::MessageError;
use line_base::Memory;
use std::alloc::Global;
use std::io;
use std::io::ErrorKind;

/// Appends why no message was read.
pub fn append_error(alloc: Global, error: MessageError, to: &mut Vec<u8>) -> Result<(), Memory> {
    match error {
        MessageError::Refused { at, why } => {
            let text = why.text(alloc, at)?;
            append(b"refused: ", to)?;
            append(text.bytes(), to)
        }
        MessageError::Memory => Err(Memory),
    }
}

fn append(bytes: &[u8], to: &mut Vec<u8>) -> Result<(), Memory> {
    match to.extend_from_slice(bytes) {
        Ok(()) => Ok(()),
        Err(_) => Err(Memory),
    }
}

/// Want of memory as the error of a writer.
pub fn within(done: Result<(), Memory>) -> io::Result<()> {
    match done {
        Ok(()) => Ok(()),
        Err(Memory) => Err(io::Error::from(ErrorKind::OutOfMemory)),
    }
}
