ghost use Rattle.std.specs.Prelude.{◌≡◌, ◌≤◌, ◌<◌, IfSome, None, length};

use crate::keeper::{Keeper, Kept2};
use line_outside::Pull;
use std::fs::{File, OpenFile};
use std::io;
use std::io::{ErrorKind, Read, Write};
use std::rt::Files;

/// How often a read begins anew where a signal broke in.
const INTERRUPTIONS: u32 = 1000;

/// A book in a file of the host's. It tells nothing of its bytes.
///
/// An entry is kept once the host says that it lies on the disk. One that isn't is cut off again; where
/// that fails too, the file may end in a part of it, and each later call of `keep` and `cut` fails.
#[derive(Drop)]
pub struct FileBook<F: Read + Write + OpenFile + Drop> {
    file: F,
    length: u64,
    torn: bool,
    faults: u64,
}

/// The book in the file of this name, which is made where there is none. The host doesn't say whether
/// another process has it open too.
pub fn open_book<R: Files>(rt: &R, path: &str) -> io::Result<FileBook<R::File>> {
    let mut how = File::options();
    how.read(true).append(true).create(true);
    let file = how.open(rt, path)?;
    FileBook::new(file)
}

impl<F: Read + Write + OpenFile + Drop> FileBook<F> {
    /// A book in this file, which is read from its start, and whose writes go to its end.
    pub fn new(file: F) -> io::Result<FileBook<F>> {
        let length = file.metadata()?.len();
        Ok(FileBook {
            file,
            length,
            torn: false,
            faults: 0,
        })
    }

    /// Cuts off what stands behind the entries that are kept.
    fn undo(&mut self)
        ensures { self.new.faults ≡ self.old.faults }
    {
        if self.file.set_len(self.length).is_err() {
            self.torn = true;
        }
    }

    /// Whether an entry lies on the disk now.
    fn is_written(&mut self, entry: &[u8]) -> bool
        ensures { self.new.faults ≡ self.old.faults }
    {
        self.file.write_all(entry).is_ok() && self.file.sync_data().is_ok()
    }

    fn is_cut(&mut self, length: u64) -> bool
        ensures { self.new.faults ≡ self.old.faults }
    {
        self.file.set_len(length).is_ok() && self.file.sync_data().is_ok()
    }
}

impl<F: Read + Write + OpenFile + Drop> Keeper for FileBook<F> {
    ghost contents = { λ _. None };

    ghost left = { λ _. None };

    ghost faults = { λ book. book.faults };

    fn pull(&mut self, room: &mut [u8]) -> Pull {
        match read_some(&mut self.file, room) {
            Some(0) => Pull::End,
            Some(count) => Pull::Bytes(count),
            None => {
                self.faults = self.faults.saturating_add(1);
                Pull::Failed
            }
        }
    }

    fn cut(&mut self, length: u64) -> Kept2 {
        if self.torn || !self.is_cut(length) {
            self.torn = true;
            self.faults = self.faults.saturating_add(1);
            return Kept2::Failed;
        }
        self.length = length;
        Kept2::Done
    }

    fn keep(&mut self, entry: &[u8]) -> Kept2 {
        if self.torn {
            self.faults = self.faults.saturating_add(1);
            return Kept2::Failed;
        }
        if !self.is_written(entry) {
            self.undo();
            self.faults = self.faults.saturating_add(1);
            return Kept2::Failed;
        }
        self.length = self.length.saturating_add(entry.len() as u64);
        Kept2::Done
    }
}

/// What one read took, or `None` where the file failed.
fn read_some<F: Read>(file: &mut F, room: &mut [u8]) -> Option<usize>
    ensures { IfSome result (λ count. count ≤ length room.old) }
{
    for _ in 0..INTERRUPTIONS {
        match file.read(room) {
            Ok(count) => return Some(count),
            Err(error) if error.kind() == ErrorKind::Interrupted => {}
            Err(_) => return None,
        }
    }
    None
}
