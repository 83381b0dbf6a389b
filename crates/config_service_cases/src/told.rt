use config_service::{ConfigError, read_config, write_config};
use line_base::Memory;
use std::alloc::Global;
use std::io;
use std::io::{ErrorKind, Write};

/// Appends what bytes say, written again, or why they say nothing.
pub fn tell_read(alloc: Global, bytes: &[u8], to: &mut Vec<u8>) -> io::Result<()> {
    match read_config(alloc, bytes) {
        Ok(message) => {
            let written = write_config(&message, to);
            drop(message);
            within(written)
        }
        Err(error) => tell_error(error, to),
    }
}

pub fn tell_error(error: ConfigError, to: &mut Vec<u8>) -> io::Result<()> {
    match error {
        ConfigError::Refused { at, why } => write!(to, "refused: {why} at {at}"),
        ConfigError::Memory => within(Err(Memory)),
    }
}

/// Want of memory as the error of a writer.
fn within(done: Result<(), Memory>) -> io::Result<()> {
    match done {
        Ok(()) => Ok(()),
        Err(Memory) => Err(io::Error::from(ErrorKind::OutOfMemory)),
    }
}
