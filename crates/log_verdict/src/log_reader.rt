ghost use Rattle.std.specs.Prelude.{◌≤◌, vec_len};
ghost use Rattle.line_check.specs.Checking.{lines_of};
ghost use Rattle.log_verdict.specs.LineEnds.{HasNoEnd};

use crate::line_ends::{cut_line, without_return};
use line_check::{CheckError, Checker, Counts};
use std::alloc::Global;

/// The most bytes that may wait for their line's end: those of a line, and a carriage return.
const MOST_PENDING: usize = 4097;

/// Reads a log piece by piece, and gives each line to the checker when its end is met.
#[derive(Drop)]
pub struct LogReader {
    checker: Checker,
    pending: Vec<u8>,
    ghost few: { lines_of checker ≤ 1000000 },
    ghost no_end: { HasNoEnd pending.items },
    ghost short: { vec_len pending ≤ 4097 },
}

impl LogReader {
    ghost use Rattle.std.specs.Prelude.{◌≡◌, ◌+◌, ◌<◌, ◌++◌, ◌∷◌, ℕ, List, [], Err, OnOk, length};
    ghost use Rattle.std.specs.Str.Lines.{lines};
    ghost use Rattle.line_check.specs.Checking.{Ends};
    ghost use Rattle.log_verdict.specs.LogReader.{Follows, Takes, progress_of};

    /// A reader before its log.
    pub fn new(alloc: Global) -> LogReader
        ensures follows { Follows [] result }
        ensures none { progress_of result ≡ 0 }
    {
        LogReader {
            checker: Checker::new(alloc),
            pending: Vec::new(alloc),
        }
    }

    /// Takes the next piece of the log.
    pub fn take_piece(&mut self, piece: &[u8]) -> Result<(), CheckError>
        ensures takes { (bytes : List ℕ) → Follows bytes self.old
            → Takes (bytes ++ piece.now) self.new result }
        ensures progress { OnOk result (progress_of self.old + length piece.now ≤ progress_of self.new) }
        ensures bounded { OnOk result (progress_of self.new ≤ 4099004097) }
    {
        let mut rest = piece;
        while let Some((line, others)) = cut_line(rest) {
            if let Err(error) = self.end_line(line) {
                return Err(error);
            }
            rest = others;
        }
        self.keep(rest)
    }

    /// Takes the log's end: its last line, if that lacks its end, and what the checker says of
    /// all.
    pub fn finish(self) -> Result<Counts, CheckError>
        ensures { (bytes : List ℕ) → Follows bytes self → Ends (lines bytes) result }
    {
        let LogReader {
            mut checker,
            pending,
        } = self;
        if pending.is_empty() {
            return checker.end();
        }
        if let Err(error) = checker.line(pending.as_slice()) {
            return Err(error);
        }
        checker.end()
    }

    /// Takes the rest of a line and its end.
    fn end_line(&mut self, part: &[u8]) -> Result<(), CheckError>
        requires { HasNoEnd part.now }
        ensures takes { (bytes : List ℕ) → Follows bytes self.old
            → Takes (bytes ++ (part.now ++ 10 ∷ [])) self.new result }
        ensures progress { OnOk result (progress_of self.old + length part.now + 1 ≤ progress_of self.new) }
    {
        if self.pending.is_empty() {
            return self.checker.line(without_return(part));
        }
        if part.len() > MOST_PENDING - self.pending.len() {
            return self.refuse_long(part);
        }
        if let Err(_) = self.pending.extend_from_slice(part) {
            return Err(CheckError::Memory);
        }
        let taken = self.checker.line(without_return(self.pending.as_slice()));
        self.pending.clear();
        taken
    }

    /// Keeps the front of a line that has not ended.
    fn keep(&mut self, part: &[u8]) -> Result<(), CheckError>
        requires { HasNoEnd part.now }
        ensures takes { (bytes : List ℕ) → Follows bytes self.old
            → Takes (bytes ++ part.now) self.new result }
        ensures progress { OnOk result (progress_of self.old + length part.now ≤ progress_of self.new) }
        ensures bounded { OnOk result (progress_of self.new ≤ 4099004097) }
    {
        if part.len() > MOST_PENDING - self.pending.len() {
            return self.refuse_long(part);
        }
        match self.pending.extend_from_slice(part) {
            Ok(()) => Ok(()),
            Err(_) => Err(CheckError::Memory),
        }
    }

    /// Gives the checker the front of a line that is too long, whose end need not be there.
    fn refuse_long(&mut self, part: &[u8]) -> Result<(), CheckError>
        requires no_end { HasNoEnd part.now }
        requires long { 4097 < vec_len self.old.pending + length part.now }
        ensures refuses { (bytes tail : List ℕ) → Follows bytes self.old
            → Takes (bytes ++ (part.now ++ tail)) self.new result }
        ensures never { OnOk result ⊥ }
    {
        let count = MOST_PENDING - self.pending.len();
        if let Err(_) = self.pending.extend_from_slice(&part[..count]) {
            return Err(CheckError::Memory);
        }
        self.checker.line(self.pending.as_slice())
    }
}
