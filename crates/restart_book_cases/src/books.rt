//! Machines that begin again from a book.

use crate::entries::put;
use line_base::{Memory, Text};
use node_core::NodeProfile;
use restart_book::{BookWhy, ResumeError, Resumed, resume};
use std::alloc::Global;
use std::io;
use std::io::Write;

/// What comes of a book.
#[derive(Clone, Copy, PartialEq, Eq)]
enum Begun {
    Whole(u64),
    Bad(u64, BookWhy),
    NoMemory,
}

/// A machine that keeps nothing, from a book.
fn begin_from(alloc: Global, book: &[u8]) -> Begun {
    match Text::plain(alloc, b"M1") {
        Ok(machine) => begun_as(alloc, machine, book),
        Err(Memory) => Begun::NoMemory,
    }
}

fn begun_as(alloc: Global, machine: Text, book: &[u8]) -> Begun {
    let profile = NodeProfile {
        number: 1,
        machine,
        lane: 1,
        capacity: 4,
        used: 0,
        bridge: false,
    };
    match resume(alloc, profile, book) {
        Ok(resumed) => Begun::Whole(whole_of(resumed)),
        Err(ResumeError::Bad { at, why }) => Begun::Bad(at, why),
        Err(ResumeError::Memory) => Begun::NoMemory,
    }
}

fn whole_of(resumed: Resumed) -> u64 {
    let whole = resumed.whole;
    drop(resumed);
    whole
}

pub fn tell_resumed(alloc: Global, book: &[u8], to: &mut Vec<u8>) -> io::Result<()> {
    tell_begun(begin_from(alloc, book), to)
}

fn tell_begun(begun: Begun, to: &mut Vec<u8>) -> io::Result<()> {
    match begun {
        Begun::Whole(whole) => write!(to, "whole {whole}"),
        Begun::Bad(at, BookWhy::Spelling) => write!(to, "spelling at {at}"),
        Begun::Bad(at, BookWhy::NotPossible) => write!(to, "not possible at {at}"),
        Begun::NoMemory => write!(to, "out of memory"),
    }
}

/// What comes of each front of a book: `whole` where it isn't that of the front before.
pub fn tell_cut(alloc: Global, book: &[u8], to: &mut Vec<u8>) -> io::Result<()> {
    let mut last = Begun::NoMemory;
    for end in 0..=book.len() {
        let now = begin_from(alloc, &book[..end]);
        if now != last {
            write!(to, "{end} ")?;
            tell_begun(now, to)?;
            write!(to, "; ")?;
        }
        last = now;
    }
    write!(to, "end")
}

/// How many books of one changed byte begin, and how many are refused.
pub fn tell_changed(alloc: Global, book: &[u8], to: &mut Vec<u8>) -> io::Result<()> {
    let mut begins = 0u32;
    let mut spelling = 0u32;
    let mut not_possible = 0u32;
    let mut changed = Vec::from_slice(alloc, book)?;
    for at in 0..book.len() {
        for value in 0..=255 {
            if value != book[at] {
                put(&mut changed, at, value);
                match begin_from(alloc, changed.as_slice()) {
                    Begun::Bad(_, BookWhy::Spelling) => spelling = spelling.saturating_add(1),
                    Begun::Bad(_, BookWhy::NotPossible) => {
                        not_possible = not_possible.saturating_add(1);
                    }
                    _ => begins = begins.saturating_add(1),
                }
            }
        }
        put(&mut changed, at, book[at]);
    }
    write!(
        to,
        "begins {begins}, spelling {spelling}, not possible {not_possible}"
    )
}
