ghost use Rattle.std.specs.Prelude.{◌≡◌, ◌<◌, ◌≤◌, ◌+◌, IfErr, OnOk, false, is_some};
ghost use Rattle.law_lanes.specs.Lanes.{lines_of, no_lanes, unvouched_of};
ghost use Rattle.line_script.specs.Ranges.{IsLaneWithin};
ghost use Rattle.line_commands.specs.Reader.{DoesAsked, DoesLine, IsNumbered, RefusesAs, Sums};

use law_report_lines::lanes_are_proper;
use line_base::Memory;
use line_engine::Line;
use line_report::{write_all, write_summary};
use line_script::{LaneLine, LineError, LineWhy, MOST_LINE_BYTES, read_line};
use std::alloc::Global;
use std::io::Write;
use std::marker::Model;

/// The most lines of a script.
const MOST_LINES: u64 = 1_000_000;

/// Why a run ended inside its script.
#[derive(Clone, Copy, Debug, PartialEq, Eq)]
pub enum RunError {
    /// This line is refused, and the report says so.
    Refused { line: u64, why: LineWhy },
    Memory,
}

/// A run between two lines of its script: how many are done, and the line of machines. It is seen
/// as the line. After `Memory` the line is spent, and nothing more can be done.
#[derive(Drop)]
pub struct ScriptRun {
    alloc: Global,
    done: u64,
    line: Line,
}

impl Model for ScriptRun {
    ghost use Rattle.std.specs.Prelude.{◌≡◌, ◌≤◌, false};
    ghost use Rattle.law_lanes.specs.Lanes.{Lanes, lines_of};

    ghost Value = { Lanes };

    ghost view = { λ run. run.line };

    ghost invariant = { λ run. run.line.spent ≡ false → (run.done ≡ lines_of run.line) × (run.done ≤ 1000000) };
}

impl ScriptRun {
    /// A run before its first line, with no machines.
    pub fn new(alloc: Global) -> ScriptRun
        ensures { result ≡ no_lanes }
    {
        ScriptRun {
            alloc,
            done: 0,
            line: Line::new(alloc),
        }
    }

    /// Does the next line of the script, given without its end, and appends its part of the
    /// report: what it did, or that it is refused.
    pub fn do_line(&mut self, line: &[u8], to: &mut Vec<u8>) -> Result<(), RunError>
        requires unspent { self.old.spent ≡ false }
        ensures does { DoesLine result self.old self.new line.now to.old.items to.new.items }
        ensures unspent { OnOk result (self.new.spent ≡ false) }
        ensures few { self.new.spent ≡ false → lines_of self.new ≤ 1000000 }
        ensures numbered { IfErr result IsNumbered }
    {
        let number = self.done + 1;
        if line.len() > MOST_LINE_BYTES {
            return refuse(number, LineWhy::LongLine, to);
        }
        if number > MOST_LINES {
            return refuse(number, LineWhy::TooManyLines, to);
        }
        match read_line(self.alloc, line) {
            Ok(asked) => {
                let done = self.do_asked(&asked, to);
                drop(asked);
                match done {
                    Ok(()) => Ok(()),
                    Err(_) => Err(RunError::Memory),
                }
            }
            Err(LineError::Refused(why)) => refuse(number, why, to),
            Err(LineError::Memory) => Err(RunError::Memory),
        }
    }

    /// Does a line that was read, as the next of the script, and appends the report's lines for
    /// what it did.
    pub fn do_asked(&mut self, asked: &LaneLine, to: &mut Vec<u8>) -> Result<(), Memory>
        requires unspent { self.old.spent ≡ false }
        requires few { lines_of self.old < 1000000 }
        requires within { IsLaneWithin asked.now }
        ensures does { OnOk result (DoesAsked asked.now self.old self.new to.old.items to.new.items) }
        ensures unspent { OnOk result (self.new.spent ≡ false) }
        ensures few { self.new.spent ≡ false → lines_of self.new ≤ 1000000 }
    {
        let number = self.done + 1;
        let told = self.line.step(number, asked)?;
        self.done = number;
        lanes_are_proper(&told);
        write_all(number, &told, to)
    }

    /// Refuses the next line as too long.
    pub fn refuse_long(&self, to: &mut Vec<u8>) -> Result<(), RunError>
        requires unspent { self.now.spent ≡ false }
        ensures refuses { RefusesAs result (lines_of self.now + 1) LineWhy.LongLine to.old.items to.new.items }
        ensures numbered { IfErr result IsNumbered }
    {
        refuse(self.done + 1, LineWhy::LongLine, to)
    }

    /// Whether a line told what was not so.
    pub fn is_unvouched(&self) -> bool
        requires { self.now.spent ≡ false }
        ensures { result ≡ is_some (unvouched_of self.now) }
    {
        self.line.summary().unvouched.is_some()
    }

    /// Appends the report's last line, where the whole script is done.
    pub fn write_summary(&self, to: &mut Vec<u8>) -> Result<(), RunError>
        requires unspent { self.now.spent ≡ false }
        ensures sums { Sums result self.now to.old.items to.new.items }
        ensures numbered { IfErr result IsNumbered }
    {
        match write_summary(&self.line.summary(), to) {
            Ok(()) => Ok(()),
            Err(_) => Err(RunError::Memory),
        }
    }
}

fn refuse(line: u64, why: LineWhy, to: &mut Vec<u8>) -> Result<(), RunError>
    ensures refuses { RefusesAs result line why to.old.items to.new.items }
    ensures numbered { 0 < line → IfErr result IsNumbered }
{
    match write!(to, "refused {line}: {why}\n") {
        Ok(()) => Err(RunError::Refused { line, why }),
        Err(_) => Err(RunError::Memory),
    }
}
