ghost use Rattle.std.specs.Prelude.{◌≡◌, OnOk, false, drop};
ghost use Rattle.restart_book.specs.Replay.{Next, ReplaysBook, StepsFound};

use crate::resuming::{BookWhy, ResumeError};
use book_entry::{Entry, EntryError, StepError, read_entry, step_entry};
use machine_log::Drives;
use node_core::Node;
use std::alloc::Global;

/// Why a machine isn't stepped on.
#[derive(Clone, Copy, Debug, PartialEq, Eq)]
pub enum Stop {
    /// What follows is neither an entry nor the front of one.
    Spelling,
    /// There is a reason against the entry's input.
    NotPossible,
    Memory,
}

/// Steps a machine with the whole entries of a book, and says how many bytes they are. The drives
/// obey.
pub fn replay(
    alloc: Global,
    node: &mut Node,
    drives: &mut Drives,
    book: &[u8],
) -> Result<u64, ResumeError>
    requires { node.old.spent ≡ false }
    ensures replays { ReplaysBook node.old drives.old book.now node.new drives.new result }
    ensures awake { OnOk result (node.new.spent ≡ false) }
{
    let mut at = 0;
    'entries: loop {
        match step_next(alloc, node, drives, behind(book, at)) {
            Ok(Some(size)) => at += size,
            Ok(None) => return Ok(at as u64),
            Err(Stop::Memory) => return Err(ResumeError::Memory),
            Err(Stop::Spelling) => return Err(bad(at, BookWhy::Spelling)),
            Err(Stop::NotPossible) => return Err(bad(at, BookWhy::NotPossible)),
        }
    }
}

/// What follows the first bytes.
fn behind(bytes: &[u8], count: usize) -> &[u8]
    ensures { result.now ≡ drop count bytes.now }
{
    let start = count.min(bytes.len());
    &bytes[start..]
}

fn bad(at: usize, why: BookWhy) -> ResumeError
    ensures { result ≡ ResumeError.Bad at why }
{
    ResumeError::Bad { at: at as u64, why }
}

/// Steps a machine with the entry that bytes begin with, and says how many bytes it is; `None` where
/// they are the front of one.
fn step_next(
    alloc: Global,
    node: &mut Node,
    drives: &mut Drives,
    bytes: &[u8],
) -> Result<Option<usize>, Stop>
    requires { node.old.spent ≡ false }
    ensures next { Next node.old drives.old bytes.now node.new drives.new result }
    ensures awake { OnOk result (node.new.spent ≡ false) }
{
    match read_entry(alloc, bytes) {
        Ok((entry, size)) => match step_found(node, drives, entry) {
            Ok(()) => Ok(Some(size)),
            Err(StepError::NotPossible) => Err(Stop::NotPossible),
            Err(StepError::Memory) => Err(Stop::Memory),
        },
        Err(EntryError::Short) => Ok(None),
        Err(EntryError::Bad) => Err(Stop::Spelling),
        Err(EntryError::Memory) => Err(Stop::Memory),
    }
}

fn step_found(node: &mut Node, drives: &mut Drives, entry: Entry) -> Result<(), StepError>
    ensures steps { StepsFound node.old drives.old entry node.new drives.new result }
    ensures awake { OnOk result (node.new.spent ≡ false) }
{
    match step_entry(node, entry) {
        Ok(acts) => {
            drives.obey(acts.list());
            Ok(())
        }
        Err(error) => Err(error),
    }
}
