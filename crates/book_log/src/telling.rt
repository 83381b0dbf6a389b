ghost use Rattle.std.specs.Prelude.{◌≡◌, ◌<◌, ◌≤◌, ◌+◌, ◌^◌, OnOk, IfOk, Ok, Some, false, drop, length};
ghost use Rattle.book_log.specs.One.{PushesLines, StepsFound, StepsNext, TellsNext};
ghost use Rattle.book_log.specs.Told.{HasLogCause, TellsBook};
ghost use Rattle.machine_log.specs.Texts.{lines_of};
ghost use Rattle.node_core.specs.Node.{new_node};

use book_entry::{Entry, EntryError, StepError, read_entry, step_entry};
use line_base::Memory;
use line_outside::{Pushed, Sink, push_all};
use machine_log::write_lines;
use node_core::{Node, NodeProfile, Outputs};
use restart_book::BookWhy;
use std::alloc::Global;

/// Why the log of a book isn't told to its end.
#[derive(Clone, Copy, Debug, PartialEq, Eq)]
pub enum LogError {
    /// The entry that begins at this byte of the book can't be done.
    Bad { at: u64, why: BookWhy },
    /// The log failed.
    Fault,
    Memory,
}

/// An entry that was done: how many bytes it is, and the acts of its step.
#[derive(Drop)]
struct Found {
    size: usize,
    acts: Outputs,
}

/// Appends to `log` what the machine of a profile did in the whole entries of its book, as it logs that
/// while it runs; the lines of its drives, too, where `drives` says so. In front of each line stands, in
/// place of a turn, how many bytes of the book lie behind that step. Answers how many bytes the whole
/// entries are; a last one that is torn is left out.
///
/// `Bad` where the machine can't begin again from this book: behind the log of the entries before.
/// `Fault` where the log failed; `Memory` where it was wanting.
pub fn tell_book<K: Sink>(
    alloc: Global,
    profile: NodeProfile,
    drives: bool,
    book: &[u8],
    log: &mut K,
) -> Result<u64, LogError>
    requires least { 1 ≤ profile.capacity }
    requires most { profile.capacity ≤ 1024 }
    requires used { profile.used < 2 ^ 48 }
    ensures tells { TellsBook drives profile.number (new_node profile) book.now result
        (K.contents log.old) (K.contents log.new) }
    ensures cause { HasLogCause result (K.faults log.old) (K.faults log.new) }
{
    let machine = profile.number;
    match Node::new(alloc, profile) {
        Ok(mut node) => {
            let told = tell_entries(alloc, &mut node, drives, machine, book, log);
            drop(node);
            told
        }
        Err(_) => Err(LogError::Memory),
    }
}

/// Steps the machine with one entry after another, and tells what it does.
fn tell_entries<K: Sink>(
    alloc: Global,
    node: &mut Node,
    drives: bool,
    machine: u32,
    book: &[u8],
    log: &mut K,
) -> Result<u64, LogError>
    requires { node.old.spent ≡ false }
    ensures tells { TellsBook drives machine node.old book.now result (K.contents log.old)
        (K.contents log.new) }
    ensures cause { HasLogCause result (K.faults log.old) (K.faults log.new) }
{
    let mut at = 0;
    'entries: loop {
        match tell_next(alloc, node, drives, machine, at, behind(book, at), log) {
            Ok(Some(next)) => at = next,
            Ok(None) => return Ok(at as u64),
            Err(error) => return Err(error),
        }
    }
}

/// What follows the first bytes.
fn behind(bytes: &[u8], count: usize) -> &[u8]
    ensures { result.now ≡ drop count bytes.now }
{
    let start = count.min(bytes.len());
    &bytes[start..]
}

/// Steps the machine with the entry that follows the first `at` bytes of its book, tells what it does,
/// and answers where that entry ends; `None` where the front of one follows.
fn tell_next<K: Sink>(
    alloc: Global,
    node: &mut Node,
    drives: bool,
    machine: u32,
    at: usize,
    bytes: &[u8],
    log: &mut K,
) -> Result<Option<usize>, LogError>
    requires awake { node.old.spent ≡ false }
    requires within { at + length bytes.now < 2 ^ 63 }
    ensures tells { TellsNext drives machine at node.old bytes.now node.new result
        (K.contents log.old) (K.contents log.new) }
    ensures awake { OnOk result (node.new.spent ≡ false) }
    ensures cause { HasLogCause result (K.faults log.old) (K.faults log.new) }
{
    match step_next(alloc, node, at, bytes) {
        Ok(Some(found)) => {
            let next = at + found.size;
            let told = tell_step(alloc, drives, next as u64, machine, &found.acts, log);
            drop(found);
            match told {
                Ok(()) => Ok(Some(next)),
                Err(error) => Err(error),
            }
        }
        Ok(None) => Ok(None),
        Err(error) => Err(error),
    }
}

/// Steps a machine with the entry that bytes begin with.
fn step_next(
    alloc: Global,
    node: &mut Node,
    at: usize,
    bytes: &[u8],
) -> Result<Option<Found>, LogError>
    requires { node.old.spent ≡ false }
    ensures next { StepsNext node.old bytes.now node.new result at }
    ensures awake { OnOk result (node.new.spent ≡ false) }
{
    match read_entry(alloc, bytes) {
        Ok((entry, size)) => step_found(node, at, entry, size),
        Err(EntryError::Short) => Ok(None),
        Err(EntryError::Bad) => Err(bad(at, BookWhy::Spelling)),
        Err(EntryError::Memory) => Err(LogError::Memory),
    }
}

fn bad(at: usize, why: BookWhy) -> LogError
    ensures { result ≡ LogError.Bad at why }
{
    LogError::Bad { at: at as u64, why }
}

fn step_found(
    node: &mut Node,
    at: usize,
    entry: Entry,
    size: usize,
) -> Result<Option<Found>, LogError>
    requires { node.old.spent ≡ false }
    ensures steps { StepsFound node.old entry node.new result at size }
    ensures awake { OnOk result (node.new.spent ≡ false) }
{
    match step_entry(node, entry) {
        Ok(acts) => Ok(Some(Found { size, acts })),
        Err(StepError::NotPossible) => Err(bad(at, BookWhy::NotPossible)),
        Err(StepError::Memory) => Err(LogError::Memory),
    }
}

/// Pushes the lines of a step.
fn tell_step<K: Sink>(
    alloc: Global,
    drives: bool,
    turn: u64,
    machine: u32,
    acts: &Outputs,
    log: &mut K,
) -> Result<(), LogError>
    ensures pushes { PushesLines (lines_of drives turn machine acts.now) result
        (K.contents log.old) (K.contents log.new) }
    ensures cause { HasLogCause result (K.faults log.old) (K.faults log.new) }
{
    let lines = match lines_text(alloc, drives, turn, machine, acts) {
        Ok(lines) => lines,
        Err(Memory) => return Err(LogError::Memory),
    };
    match push_all(log, lines.as_slice()) {
        Pushed::Whole => Ok(()),
        Pushed::Failed => Err(LogError::Fault),
    }
}

fn lines_text(
    alloc: Global,
    drives: bool,
    turn: u64,
    machine: u32,
    acts: &Outputs,
) -> Result<Vec<u8>, Memory>
    ensures { IfOk result (λ text. text.items ≡ lines_of drives turn machine acts.now) }
{
    let mut text = Vec::new(alloc);
    match write_lines(drives, turn, machine, acts.list(), &mut text) {
        Ok(()) => Ok(text),
        Err(Memory) => Err(Memory),
    }
}
