ghost use Rattle.std.specs.Prelude.{◌≡◌, ◌++◌, OnErr, OnOk, codes, decimal};
ghost use Rattle.hermes_element.specs.Standing.{StillStands};
ghost use Rattle.line_report.specs.Texts.{summary_text, unvouched_text};

use crate::bytes::{append, append_digits};
use line_base::Memory;

/// The numbers of a report's last line.
#[derive(Clone, Copy, Debug, PartialEq, Eq)]
pub struct Summary {
    /// How many lines of the script were done.
    pub lines: u64,
    /// How many boards lie on the floor.
    pub boards: u64,
    /// How many handovers were opened.
    pub opened: u64,
    /// How many boards settled with a downstream machine.
    pub settled: u64,
    /// The first line of the script that told what was not so.
    pub unvouched: Option<u64>,
}

/// Appends the last line of the report. `Memory` where there is no room for it: the text is as it
/// was then.
pub fn write_summary(summary: &Summary, to: &mut Vec<u8>) -> Result<(), Memory>
    ensures kept { StillStands to.old.items to.new.items }
    ensures written { OnOk result (to.new.items ≡ to.old.items ++ summary_text summary.now) }
    ensures unchanged { OnErr result (to.new.items ≡ to.old.items) }
{
    let before = to.len();
    match append_summary(summary, to) {
        Ok(()) => Ok(()),
        Err(Memory) => {
            to.truncate(before);
            Err(Memory)
        }
    }
}

fn append_summary(summary: &Summary, to: &mut Vec<u8>) -> Result<(), Memory>
    ensures kept { StillStands to.old.items to.new.items }
    ensures written { OnOk result (to.new.items ≡ to.old.items ++ summary_text summary.now) }
{
    write_counts(summary, to)?;
    write_unvouched(summary.unvouched, to)?;
    append(b"\n", to)
}

fn write_counts(summary: &Summary, to: &mut Vec<u8>) -> Result<(), Memory>
    ensures kept { StillStands to.old.items to.new.items }
    ensures written { OnOk result (to.new.items ≡ to.old.items ++ (codes "end lines=" ++ decimal summary.now.lines ++ codes " boards=" ++ decimal summary.now.boards ++ codes " opened=" ++ decimal summary.now.opened ++ codes " settled=" ++ decimal summary.now.settled)) }
{
    write_count("end lines=", summary.lines, to)?;
    write_count(" boards=", summary.boards, to)?;
    write_count(" opened=", summary.opened, to)?;
    write_count(" settled=", summary.settled, to)
}

fn write_unvouched(unvouched: Option<u64>, to: &mut Vec<u8>) -> Result<(), Memory>
    ensures kept { StillStands to.old.items to.new.items }
    ensures written { OnOk result (to.new.items ≡ to.old.items ++ unvouched_text unvouched) }
{
    match unvouched {
        None => Ok(()),
        Some(line) => write_count(" unvouched=", line, to),
    }
}

/// What is counted, and its number.
fn write_count(what: &str, number: u64, to: &mut Vec<u8>) -> Result<(), Memory>
    ensures kept { StillStands to.old.items to.new.items }
    ensures written { OnOk result (to.new.items ≡ to.old.items ++ (what.now ++ decimal number)) }
{
    append(what.as_bytes(), to)?;
    append_digits(number, to)
}
