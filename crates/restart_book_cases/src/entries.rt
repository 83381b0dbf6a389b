//! What bytes are read as.

ghost use Rattle.book_entry.specs.Spelling.{IsWritable};

use book_entry::{Entry, EntryError, read_entry, write_entry};
use std::alloc::{AllocError, Global};
use std::io;
use std::io::Write;

/// How bytes are read, and that what is read is written as it stands there.
#[derive(Clone, Copy, PartialEq, Eq)]
pub enum Told {
    Short,
    Bad,
    /// An entry of so many bytes.
    Entry(usize),
    /// One that is written in another form: that never comes.
    Another,
    NoMemory,
}

pub fn told_of(alloc: Global, bytes: &[u8]) -> Told {
    match read_entry(alloc, bytes) {
        Ok(found) => told_again(alloc, found, bytes),
        Err(EntryError::Short) => Told::Short,
        Err(EntryError::Bad) => Told::Bad,
        Err(EntryError::Memory) => Told::NoMemory,
    }
}

fn told_again(alloc: Global, found: (Entry, usize), bytes: &[u8]) -> Told
    requires { IsWritable found.0 }
{
    let (entry, size) = found;
    let same = is_same(alloc, &entry, size, bytes);
    drop(entry);
    match same {
        Ok(true) => Told::Entry(size),
        Ok(false) => Told::Another,
        Err(_) => Told::NoMemory,
    }
}

fn is_same(alloc: Global, entry: &Entry, size: usize, bytes: &[u8]) -> Result<bool, AllocError>
    requires { IsWritable entry.now }
{
    let mut again = Vec::new(alloc);
    if write_entry(alloc, entry, &mut again).is_err() {
        return Err(AllocError);
    }
    Ok(bytes.get(..size) == Some(again.as_slice()))
}

pub fn tell_entry(alloc: Global, bytes: &[u8], to: &mut Vec<u8>) -> io::Result<()> {
    match told_of(alloc, bytes) {
        Told::Short => write!(to, "short"),
        Told::Bad => write!(to, "bad"),
        Told::Entry(size) => write!(to, "{size} bytes"),
        Told::Another => write!(to, "written in another form"),
        Told::NoMemory => write!(to, "out of memory"),
    }
}

/// How many of what was read.
#[derive(Clone, Copy)]
struct Counts {
    short: u32,
    bad: u32,
    entries: u32,
    others: u32,
}

impl Counts {
    fn new() -> Counts {
        Counts {
            short: 0,
            bad: 0,
            entries: 0,
            others: 0,
        }
    }

    fn add(&mut self, told: Told) {
        match told {
            Told::Short => self.short = self.short.saturating_add(1),
            Told::Bad => self.bad = self.bad.saturating_add(1),
            Told::Entry(_) => self.entries = self.entries.saturating_add(1),
            _ => self.others = self.others.saturating_add(1),
        }
    }

    fn tell(self, to: &mut Vec<u8>) -> io::Result<()> {
        let Counts {
            short,
            bad,
            entries,
            others,
        } = self;
        write!(
            to,
            "short {short}, bad {bad}, entries {entries}, others {others}"
        )
    }
}

/// What each proper front of the bytes is.
pub fn tell_cuts(alloc: Global, bytes: &[u8], to: &mut Vec<u8>) -> io::Result<()> {
    let mut counts = Counts::new();
    for end in 0..bytes.len() {
        counts.add(told_of(alloc, &bytes[..end]));
    }
    counts.tell(to)
}

/// What becomes of the bytes by each change of one of them.
pub fn tell_changes(alloc: Global, bytes: &[u8], to: &mut Vec<u8>) -> io::Result<()> {
    let mut counts = Counts::new();
    let mut changed = Vec::from_slice(alloc, bytes)?;
    for at in 0..bytes.len() {
        for value in 0..=255 {
            if value != bytes[at] {
                put(&mut changed, at, value);
                counts.add(told_of(alloc, changed.as_slice()));
            }
        }
        put(&mut changed, at, bytes[at]);
    }
    counts.tell(to)
}

/// Puts a byte into its place, where it has one.
pub fn put(bytes: &mut Vec<u8>, at: usize, value: u8) {
    if let Some(place) = bytes.get_mut(at) {
        *place = value;
    }
}
