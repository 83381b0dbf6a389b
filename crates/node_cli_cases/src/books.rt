//! The book of a case.

ghost use Rattle.std.specs.Prelude.{Some};

use crate::calls::written;
use book_keeper::{Keeper, Kept2, MemoryBook};
use line_base::Memory;
use line_outside::Pull;
use node_cli::{Guarded, Taken};
use std::alloc::Global;
use std::io::Write;

/// How many bytes more a book has room for.
const BOOK_BYTES: usize = 1_000_000;

/// A book in memory that another process may have.
#[derive(Drop)]
pub struct CaseBook {
    book: MemoryBook,
    held: bool,
}

impl Keeper for CaseBook {
    ghost contents = { λ case. case.book.contents };

    ghost left = { λ case. Some case.book.left };

    ghost faults = { λ case. case.book.faults };

    fn pull(&mut self, room: &mut [u8]) -> Pull {
        self.book.pull(room)
    }

    fn cut(&mut self, length: u64) -> Kept2 {
        self.book.cut(length)
    }

    fn keep(&mut self, entry: &[u8]) -> Kept2 {
        self.book.keep(entry)
    }
}

impl Guarded for CaseBook {
    ghost busy = { λ case. Some case.held };

    fn take(&mut self) -> Taken {
        if self.held {
            return Taken::Busy;
        }
        Taken::Done
    }
}

/// The book before the run: the bytes of the lines that begin with `@`, one behind another; without
/// such a line none. `failing keep N` names a call that fails; `the book is busy`: another process has it.
pub fn book_of(alloc: Global, body: &str, faults: &str) -> Result<CaseBook, Memory> {
    let bytes = bytes_of(alloc, body)?;
    let book = match faults.strip_prefix("failing keep ") {
        Some(number) => {
            let number = number.parse::<u64>().unwrap_or(0);
            MemoryBook::new(alloc, bytes.as_slice(), BOOK_BYTES, &[number])?
        }
        None => MemoryBook::new(alloc, bytes.as_slice(), BOOK_BYTES, &[])?,
    };
    Ok(CaseBook {
        book,
        held: faults == "the book is busy",
    })
}

fn bytes_of(alloc: Global, body: &str) -> Result<Vec<u8>, Memory> {
    let mut bytes = Vec::new(alloc);
    for line in body.lines() {
        if let Some(digits) = line.strip_prefix("@ ") {
            append_digits(alloc, digits, &mut bytes)?;
        }
    }
    Ok(bytes)
}

/// What is no pair of digits, as `-`, is no byte.
fn append_digits(alloc: Global, digits: &str, to: &mut Vec<u8>) -> Result<(), Memory> {
    match hex::decode(alloc, digits) {
        Ok(bytes) => written(to.extend_from_slice(bytes.as_slice())),
        Err(hex::FromHexError::OutOfMemory) => Err(Memory),
        Err(_) => Ok(()),
    }
}

/// The book behind the run, where the case has one.
pub fn tell_book(book: &CaseBook, body: &str, to: &mut Vec<u8>) -> Result<(), Memory> {
    if !body.lines().any(|line| line.starts_with("@ ")) {
        return Ok(());
    }
    written(write!(to, "@ "))?;
    match book.book.contents() {
        Some(bytes) => tell_digits(bytes, to)?,
        None => written(write!(to, "untold"))?,
    }
    written(write!(to, "\n"))
}

fn tell_digits(bytes: &[u8], to: &mut Vec<u8>) -> Result<(), Memory> {
    if bytes.is_empty() {
        return written(write!(to, "-"));
    }
    for byte in bytes {
        written(write!(to, "{byte:02x}"))?;
    }
    Ok(())
}
