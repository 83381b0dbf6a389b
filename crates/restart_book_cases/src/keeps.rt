//! A book in memory.

use crate::bytes_of;
use book_keeper::{Keeper, Kept2, MemoryBook};
use std::alloc::Global;
use std::io;
use std::io::Write;

/// `ROOM FAILING BYTES..`: what each call of `keep` answers, and what the book has then.
pub fn tell_kept(alloc: Global, words: &str, to: &mut Vec<u8>) -> io::Result<()> {
    let mut numbers = words.split(' ');
    let room = numbers.next().unwrap_or("").parse::<u16>().unwrap_or(0);
    let failing = numbers.next().unwrap_or("").parse::<u64>().unwrap_or(0);
    match MemoryBook::new(alloc, &[7], usize::from(room), &[failing]) {
        Ok(mut book) => {
            let done = tell_keeps(alloc, &mut book, words, to);
            drop(book);
            done
        }
        Err(_) => write!(to, "out of memory"),
    }
}

/// What each call of `keep` with the words after the first two answers, and what the book has then.
fn tell_keeps(
    alloc: Global,
    book: &mut MemoryBook,
    words: &str,
    to: &mut Vec<u8>,
) -> io::Result<()> {
    for word in words.split(' ').skip(2) {
        match bytes_of(alloc, word)? {
            Some(bytes) => tell_keep(book, bytes.as_slice(), to)?,
            None => write!(to, "no case ")?,
        }
    }
    tell_contents(book, to)
}

fn tell_keep(book: &mut MemoryBook, bytes: &[u8], to: &mut Vec<u8>) -> io::Result<()> {
    match book.keep(bytes) {
        Kept2::Done => write!(to, "done "),
        Kept2::Failed => write!(to, "failed "),
    }
}

fn tell_contents(book: &MemoryBook, to: &mut Vec<u8>) -> io::Result<()> {
    match book.contents() {
        Some(bytes) => write!(to, "{bytes:?}"),
        None => write!(to, "untold"),
    }
}
