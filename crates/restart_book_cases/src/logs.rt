//! The logs that books tell.

use book_log::{LogError, tell_book};
use line_base::{Memory, Text};
use line_outside::MemorySink;
use node_core::NodeProfile;
use restart_book::BookWhy;
use std::alloc::Global;
use std::io;
use std::io::Write;

/// How many bytes of a log are kept.
const LOG_BYTES: usize = 100_000;

/// The log of a book, its lines apart by ` / `, and how many bytes of it are whole entries, or why it is refused.
pub fn tell_logged(alloc: Global, book: &[u8], to: &mut Vec<u8>) -> io::Result<()> {
    match log_of(alloc, book) {
        Ok((log, answer)) => {
            let done = tell_log(&log, answer, to);
            drop(log);
            done
        }
        Err(Memory) => write!(to, "out of memory"),
    }
}

fn tell_log(log: &MemorySink, answer: Result<u64, LogError>, to: &mut Vec<u8>) -> io::Result<()> {
    tell_lines(log.contents().unwrap_or(b"untold"), to)?;
    tell_answer(answer, to)
}

fn log_of(alloc: Global, book: &[u8]) -> Result<(MemorySink, Result<u64, LogError>), Memory> {
    let machine = Text::plain(alloc, b"M1")?;
    let mut log = MemorySink::new(alloc, LOG_BYTES, &[])?;
    let profile = NodeProfile {
        number: 1,
        machine,
        lane: 1,
        capacity: 4,
        used: 0,
        bridge: false,
    };
    let answer = tell_book(alloc, profile, false, book, &mut log);
    Ok((log, answer))
}

fn tell_lines(log: &[u8], to: &mut Vec<u8>) -> io::Result<()> {
    for byte in log {
        if *byte == b'\n' {
            write!(to, " / ")?;
        } else {
            to.extend_from_slice(&[*byte])?;
        }
    }
    Ok(())
}

fn tell_answer(answer: Result<u64, LogError>, to: &mut Vec<u8>) -> io::Result<()> {
    match answer {
        Ok(whole) => write!(to, "whole {whole}"),
        Err(LogError::Bad { at, why }) => match why {
            BookWhy::Spelling => write!(to, "spelling at {at}"),
            BookWhy::NotPossible => write!(to, "not possible at {at}"),
        },
        Err(LogError::Fault) => write!(to, "log fault"),
        Err(LogError::Memory) => write!(to, "out of memory"),
    }
}
