ghost use Rattle.std.specs.Prelude.{◌≡◌, ◌++◌, IfOk, OnOk, codes};
ghost use Rattle.std.specs.Fmt.{decimal};
ghost use Rattle.std.specs.Str.Lines.{lines};
ghost use Rattle.line_check.specs.Log.{against};
ghost use Rattle.board_traces.specs.Trace.{Finds, history_of, trace_of, verdict_on};

use crate::boards::read_boards;
use crate::history::write_deeds;
use crate::texts::{write_end, write_no};
use board_record::BoardId;
use line_base::Memory;
use line_outside::{SteadySink, SteadySource};
use log_verdict::{Checked, check_log};
use std::alloc::Global;
use std::io::Write;

/// What a log is found to be.
#[derive(Clone, Copy, Debug, PartialEq, Eq)]
pub enum Verdict {
    /// Nothing is against it.
    Right,
    /// A reason is against it.
    Refused,
}

/// How many bytes the text of a verdict may have that is not kept.
const VERDICT_BYTES: usize = 100;

/// Appends the trace of a merged log: a line for each board that it ever had, in the order of
/// their coming, and the counts; of a log that something is against the boards of the lines before
/// it, and then `no <line> <reason>`, as a check says it.
///
/// It keeps a course for each board. `Memory` where there is none for them, for a copy of the log,
/// or for the text, of which `to` may then have a beginning.
pub fn trace_log(alloc: Global, log: &[u8], to: &mut Vec<u8>) -> Result<Verdict, Memory>
    ensures text { OnOk result (to.new.items ≡ to.old.items ++ trace_of log.now) }
    ensures verdict { IfOk result (λ verdict. verdict ≡ verdict_on (against (lines log.now))) }
{
    match checked(alloc, log)? {
        Checked::Done => {
            let read = read_boards(alloc, log, None)?;
            read.boards.write(to)?;
            write_end(read.lines, &read.boards, to)?;
            Ok(Verdict::Right)
        }
        Checked::Refuted { line, why } => {
            let read = read_boards(alloc, log, Some(line))?;
            read.boards.write(to)?;
            write_no(line, why, to)?;
            Ok(Verdict::Refused)
        }
        _ => Err(Memory),
    }
}

/// Appends the trace of one board: each line whose deed names it, with its number, and how many
/// lines there are; of a log that something is against those before it, and then what a check
/// says. `Memory` as for the whole trace.
pub fn trace_board(
    alloc: Global,
    id: BoardId,
    log: &[u8],
    to: &mut Vec<u8>,
) -> Result<Verdict, Memory>
    ensures text { OnOk result (to.new.items ≡ to.old.items ++ history_of id log.now) }
    ensures verdict { IfOk result (λ verdict. verdict ≡ verdict_on (against (lines log.now))) }
{
    match checked(alloc, log)? {
        Checked::Done => {
            let count = write_deeds(id, log, None, to)?;
            write_count(count, to)?;
            Ok(Verdict::Right)
        }
        Checked::Refuted { line, why } => {
            let _count = write_deeds(id, log, Some(line), to)?;
            write_no(line, why, to)?;
            Ok(Verdict::Refused)
        }
        _ => Err(Memory),
    }
}

fn write_count(count: u64, to: &mut Vec<u8>) -> Result<(), Memory>
    ensures { OnOk result
        (to.new.items ≡ to.old.items ++ codes "end lines=" ++ decimal count ++ codes "\n") }
{
    write!(to, "end lines={count}\n").map_err(|_| Memory)
}

/// What a check finds of a log.
fn checked(alloc: Global, log: &[u8]) -> Result<Checked, Memory>
    ensures { IfOk result (Finds log.now) }
{
    let mut source = SteadySource::new(alloc, log)?;
    let mut sink = SteadySink::new(alloc, VERDICT_BYTES)?;
    Ok(check_log(alloc, &mut source, &mut sink))
}
