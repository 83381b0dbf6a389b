ghost use Rattle.log_verdict.specs.Verdict.{Checks, HasCauses, no_text, yes_text};
ghost use Rattle.log_verdict.specs.Written.{WritesNo, WritesYes};

use crate::checked::Checked;
use crate::reading::{LogError, read_log};
use line_check::{CheckWhy, Counts};
use line_outside::{Pushed, Sink, Source, push_all};
use std::alloc::Global;

/// Checks the merged log of the machines of a line that the source has, and writes the verdict:
/// `yes lines=<n> boards=<b>`, b the ids that have a mark at its end, or `no <line> <reason>` with
/// the first reason against it at the first line where one holds.
///
/// `Done` only where the log was read to its end, its deeds in order are legal, and after each
/// group each id with a mark has exactly one standing; `Refuted` only where that reason is the
/// first. A fault comes only where the count of that object rose. Who merged the log isn't
/// trusted.
pub fn check_log<S: Source, K: Sink>(alloc: Global, log: &mut S, verdict: &mut K) -> Checked
    ensures checks { Checks (S.left log.old) (S.left log.new) (K.contents verdict.old)
        (K.contents verdict.new) result }
    ensures causes { HasCauses result (S.faults log.old) (S.faults log.new) (K.faults verdict.old)
        (K.faults verdict.new) }
{
    match read_log(alloc, log) {
        Ok(counts) => write_yes(alloc, counts, verdict),
        Err(LogError::No { line, why }) => write_no(alloc, line, why, verdict),
        Err(LogError::ReadFault) => Checked::ReadFault,
        Err(LogError::Memory) => Checked::Memory,
    }
}

fn write_yes<K: Sink>(alloc: Global, counts: Counts, verdict: &mut K) -> Checked
    ensures { WritesYes (K.contents verdict.old) (K.contents verdict.new) (K.faults verdict.old)
        (K.faults verdict.new) (yes_text counts.lines counts.boards) result }
{
    let lines = counts.lines;
    let boards = counts.boards;
    let text = match format!(in alloc; "yes lines={lines} boards={boards}\n") {
        Ok(text) => text,
        Err(_) => return Checked::Memory,
    };
    match push_all(verdict, text.as_bytes()) {
        Pushed::Whole => Checked::Done,
        Pushed::Failed => Checked::WriteFault,
    }
}

fn write_no<K: Sink>(alloc: Global, line: u64, why: CheckWhy, verdict: &mut K) -> Checked
    ensures { WritesNo line why (K.contents verdict.old) (K.contents verdict.new)
        (K.faults verdict.old) (K.faults verdict.new) (no_text line why) result }
{
    let text = match format!(in alloc; "no {line} {why}\n") {
        Ok(text) => text,
        Err(_) => return Checked::Memory,
    };
    match push_all(verdict, text.as_bytes()) {
        Pushed::Whole => Checked::Refuted { line, why },
        Pushed::Failed => Checked::WriteFault,
    }
}
