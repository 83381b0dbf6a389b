ghost use Rattle.std.specs.Prelude.{◌≡◌, None};

use book_keeper::{FileBook, Keeper, Kept2};
use line_base::{Memory, Words};
use line_outside::Pull;
use node_cli::{Guarded, Taken};
use std::alloc::Global;
use std::fs::{File, TryLockError};
use std::rt::Files;
use std::{fs, str};

/// The book beside the settings file: a file of its name with `.book`. It is opened, and made where
/// there is none, and locked, when it is taken. One that wasn't taken fails in each call.
#[derive(Drop)]
pub struct NodeBook<R: Files<File = File> + Drop> {
    host: R,
    path: Vec<u8>,
    book: Option<FileBook<File>>,
    faults: u64,
}

impl<R: Files<File = File> + Drop> NodeBook<R> {
    /// The book beside the file that the first word names.
    pub fn beside(alloc: Global, host: R, words: &Words) -> Result<NodeBook<R>, Memory> {
        let mut path = Vec::new(alloc);
        if let Some(word) = words.list().first() {
            path.extend_from_slice(word.bytes())?;
            path.extend_from_slice(b".book")?;
        }
        Ok(NodeBook {
            host,
            path,
            book: None,
            faults: 0,
        })
    }

    fn open(&mut self) -> Taken
        ensures { self.new.faults ≡ self.old.faults }
    {
        let Ok(path) = str::from_utf8(self.path.as_slice()) else {
            return Taken::Failed;
        };
        match locked_file(&self.host, path) {
            Ok(file) => match book_in(&self.host, path, file) {
                Some(book) => {
                    self.book = Some(book);
                    Taken::Done
                }
                None => Taken::Failed,
            },
            Err(TryLockError::WouldBlock) => Taken::Busy,
            Err(TryLockError::Error(_)) => Taken::Failed,
        }
    }
}

/// The file of this name, which is made where there is none, with its lock. The lock lasts as long as the
/// file is open, so no process that was killed holds it.
fn locked_file<R: Files<File = File>>(host: &R, path: &str) -> Result<File, TryLockError> {
    let mut how = File::options();
    how.read(true).append(true).create(true);
    match how.open(host, path) {
        Ok(file) => match file.try_lock() {
            Ok(()) => Ok(file),
            Err(error) => Err(error),
        },
        Err(error) => Err(TryLockError::Error(error)),
    }
}

/// The book in this file. While it has no bytes its folder is synced first: after a power cut a file that
/// was made in it is there.
fn book_in<R: Files<File = File>>(host: &R, path: &str, file: File) -> Option<FileBook<File>> {
    let length = match file.metadata() {
        Ok(metadata) => metadata.len(),
        Err(_) => return None,
    };
    if length == 0 && !is_synced(host, folder_of(path)) {
        return None;
    }
    FileBook::new(file).ok()
}

/// The folder of a file of this name.
fn folder_of(path: &str) -> &str {
    match path.rsplit_once('/') {
        Some(("", _)) => "/",
        Some((folder, _)) => folder,
        None => ".",
    }
}

/// Whether the host says that what stands in a folder lies on the disk.
fn is_synced<R: Files<File = File>>(host: &R, folder: &str) -> bool {
    match fs::open(host, folder) {
        Ok(folder) => folder.sync_all().is_ok(),
        Err(_) => false,
    }
}

impl<R: Files<File = File> + Drop> Keeper for NodeBook<R> {
    ghost contents = { λ _. None };

    ghost left = { λ _. None };

    ghost faults = { λ book. book.faults };

    fn pull(&mut self, room: &mut [u8]) -> Pull {
        let pull = match &mut self.book {
            Some(book) => book.pull(room),
            None => Pull::Failed,
        };
        if pull == Pull::Failed {
            self.faults = self.faults.saturating_add(1);
        }
        pull
    }

    fn cut(&mut self, length: u64) -> Kept2 {
        let kept = match &mut self.book {
            Some(book) => book.cut(length),
            None => Kept2::Failed,
        };
        if kept == Kept2::Failed {
            self.faults = self.faults.saturating_add(1);
        }
        kept
    }

    fn keep(&mut self, entry: &[u8]) -> Kept2 {
        let kept = match &mut self.book {
            Some(book) => book.keep(entry),
            None => Kept2::Failed,
        };
        if kept == Kept2::Failed {
            self.faults = self.faults.saturating_add(1);
        }
        kept
    }
}

impl<R: Files<File = File> + Drop> Guarded for NodeBook<R> {
    ghost busy = { λ _. None };

    fn take(&mut self) -> Taken {
        let taken = self.open();
        if taken == Taken::Failed {
            self.faults = self.faults.saturating_add(1);
        }
        taken
    }
}
