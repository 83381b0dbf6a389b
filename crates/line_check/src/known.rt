ghost use Rattle.std.specs.Prelude.{◌≤◌};
ghost use Rattle.line_check.specs.Group.{IsOfLine};

use crate::book::Book;
use crate::group::{Group, group_of, is_same_group};
use crate::reading::{Reading, said_in};
use crate::turns::Turns;
use crate::why::{CheckError, CheckWhy, Counts};
use line_base::Memory;
use std::alloc::Global;

/// The most bytes of a line.
const MOST_LINE_BYTES: usize = 4096;

/// The most lines of a log.
const MOST_LINES: u64 = 1_000_000;

/// What is known of the lines so far, where nothing is against them.
#[derive(Drop)]
pub struct Known {
    lines: u64,
    /// The group of the last line.
    open_group: Option<Group>,
    turns: Turns,
    book: Book,
    ghost few: { lines ≤ 1000000 },
}

impl Known {
    ghost use Rattle.std.specs.Prelude.{◌≡◌, ◌≢◌, ◌+◌, ◌<◌, ◌==◌, ◌&&◌, ℕ, List, [], ◌∷◌, ◌++◌, Option, None, Some, Ok, Err, IfErr, IfOk, OnOk, false, not, length};
    ghost use Rattle.line_check.specs.declared.reading.Reading.{Reading as Saying};
    ghost use Rattle.line_check.specs.LogLine.{group_of as group_in, said_by};
    ghost use Rattle.line_check.specs.Within.{IsWithin};
    ghost use Rattle.line_check.specs.Log.{all_stand, is_same_group as same_group, ledger_of};
    ghost use Rattle.line_check.specs.Checking.{Ends, IsKnown, Knows, own_reason_at, reason_of};

    /// Before the first line.
    pub fn new(alloc: Global) -> Known
        ensures { IsKnown [] result }
    {
        Known {
            lines: 0,
            open_group: None,
            turns: Turns::new(),
            book: Book::new(alloc),
        }
    }

    /// Takes the next line.
    pub fn take(&mut self, bytes: &[u8]) -> Result<(), CheckError>
        ensures knows { (lines : List (List ℕ)) → IsKnown lines self.old
            → Knows (lines ++ bytes.now ∷ []) self.new result }
        ensures counted { OnOk result (self.new.lines ≡ self.old.lines + 1) }
        ensures short { OnOk result (length bytes.now ≤ 4096) }
    {
        let group = group_of(bytes);
        if self.ends_without(group) {
            return Err(CheckError::No {
                line: self.lines,
                why: CheckWhy::Standing,
            });
        }
        let said = said_in(group, bytes);
        let group = match self.judge(bytes, group, &said) {
            Ok(group) => group,
            Err(why) => {
                return Err(CheckError::No {
                    line: self.lines + 1,
                    why,
                });
            }
        };
        match self.note(bytes, group, &said) {
            Ok(()) => Ok(()),
            Err(_) => Err(CheckError::Memory),
        }
    }

    /// Whether a line of this group, or of none, ends a group behind which some id has marks and
    /// no standing.
    fn ends_without(&self, group: Option<Group>) -> bool
        ensures { (lines : List (List ℕ)) → IsKnown lines self.now
            → result ≡
            (not (same_group self.now.open_group group) && not (all_stand (ledger_of lines).marks)) }
    {
        !is_same_group(self.open_group, group) && !self.book.all_stand()
    }

    /// The group of a line, or the first reason against it that doesn't hang on what follows it.
    fn judge(&self, bytes: &[u8], group: Option<Group>, said: &Reading) -> Result<Group, CheckWhy>
        requires group { group ≡ group_in bytes.now }
        requires said { said.now ≡ said_by bytes.now }
        requires within { IsWithin group said.now }
        ensures answer { (lines : List (List ℕ)) → IsKnown lines self.now
            → reason_of result ≡ own_reason_at lines bytes.now }
        ensures group { IfOk result (λ its. group ≡ Some its) }
        ensures few { OnOk result (self.now.lines < 1000000) }
        ensures short { OnOk result (length bytes.now ≤ 4096) }
    {
        if bytes.len() > MOST_LINE_BYTES {
            return Err(CheckWhy::Long);
        }
        if self.lines == MOST_LINES {
            return Err(CheckWhy::Lines);
        }
        let Some(group) = group else {
            return Err(CheckWhy::Form);
        };
        if let Reading::Bad = said {
            return Err(CheckWhy::Form);
        }
        if self.turns.is_late(group) {
            return Err(CheckWhy::Turn);
        }
        match said {
            Reading::Does(deed) if !self.book.is_legal(deed) => Err(CheckWhy::Legal),
            _ => Ok(group),
        }
    }

    /// Notes a line that nothing is against.
    fn note(&mut self, bytes: &[u8], group: Group, said: &Reading) -> Result<(), Memory>
        requires few { self.old.lines < 1000000 }
        requires group { group_in bytes.now ≡ Some group }
        requires said { said.now ≡ said_by bytes.now }
        requires within { IsWithin (Some group) said.now }
        ensures known { OnOk result ((lines : List (List ℕ)) → IsKnown lines self.old
            → own_reason_at lines bytes.now ≡ None
            → (not (same_group self.old.open_group (Some group))
            && not (all_stand (ledger_of lines).marks)) ≡ false
            → IsKnown (lines ++ bytes.now ∷ []) self.new) }
        ensures counted { OnOk result (self.new.lines ≡ self.old.lines + 1) }
    {
        self.book.note_said(said)?;
        self.turns.note(group);
        self.open_group = Some(group);
        self.lines += 1;
        Ok(())
    }

    /// Ends the log behind its last line.
    pub fn end(&self) -> Result<Counts, CheckError>
        ensures memory { IfErr result (λ error. error ≢ CheckError.Memory) }
        ensures ends { (lines : List (List ℕ)) → IsKnown lines self.now → Ends lines result }
    {
        if !self.book.all_stand() {
            return Err(CheckError::No {
                line: self.lines,
                why: CheckWhy::Standing,
            });
        }
        Ok(Counts {
            lines: self.lines,
            boards: self.book.boards() as u64,
        })
    }
}
