//! A line of a script is read and done.

ghost use Rattle.std.specs.Prelude.{◌≡◌, ◌+◌, ◌≤◌, false, OnOk};
ghost use Rattle.line_script.specs.Ranges.{IsLaneWithin};
ghost use Rattle.law_lanes.specs.Lanes.{lines_of};

use line_base::Memory;
use line_engine::{Line, write_all};
use line_script::{LaneLine, LineError, LineWhy, read_line};
use std::alloc::Global;
use std::io::Write;

/// The most lines of a script.
const MOST_LINES: u64 = 1_000_000;

/// Does a line of the script, and appends what it did.
pub fn do_text(alloc: Global, text: &str, line: &mut Line, to: &mut Vec<u8>) -> Result<(), Memory>
    requires { line.old.spent ≡ false }
    ensures { OnOk result (line.new.spent ≡ false) }
{
    let number = line.summary().lines.saturating_add(1);
    if number > MOST_LINES {
        return Ok(());
    }
    match read_line(alloc, text.as_bytes()) {
        Ok(asked) => do_line(number, &asked, line, to),
        Err(LineError::Refused(why)) => refuse(number, why, to),
        Err(LineError::Memory) => Err(Memory),
    }
}

fn do_line(number: u64, asked: &LaneLine, line: &mut Line, to: &mut Vec<u8>) -> Result<(), Memory>
    requires numbered { number ≡ lines_of line.old + 1 }
    requires few { number ≤ 1000000 }
    requires within { IsLaneWithin asked.now }
    ensures { OnOk result (line.new.spent ≡ false) }
{
    let told = line.step(number, asked)?;
    write_all(number, &told, to)
}

fn refuse(number: u64, why: LineWhy, to: &mut Vec<u8>) -> Result<(), Memory> {
    match write!(to, "{number} refused: {why}\n") {
        Ok(()) => Ok(()),
        Err(_) => Err(Memory),
    }
}
