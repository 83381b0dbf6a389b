ghost use Rattle.std.specs.Prelude.{◌≡◌, ◌<◌, ◌≤◌, [], length};
ghost use Rattle.law_lanes.specs.Lanes.{no_lanes};
ghost use Rattle.line_commands.specs.Command.{Runs, IsRunStatus};
ghost use Rattle.line_status.specs.Status.{HasCauses};
ghost use Rattle.line_commands.specs.Reader.{IsNumbered};
ghost use Rattle.line_commands.specs.Ending.{EndsWhole, EndsRefused};

use crate::script_reader::ScriptReader;
use crate::script_run::RunError;
use line_outside::{Pull, Pushed, Sink, Source, push_all};
use line_status::{InputWhy, PIECE_BYTES, Status, front, push_full};
use std::alloc::Global;

/// Runs the script that the source has, and writes its report.
pub fn run_script<S: Source, K: Sink>(alloc: Global, script: &mut S, report: &mut K) -> Status
    ensures runs { Runs (S.left script.old) (S.left script.new) (K.contents report.old)
        (K.contents report.new) result }
    ensures fits { IsRunStatus result }
    ensures causes { HasCauses result (S.faults script.old) (S.faults script.new)
        (K.faults report.old) (K.faults report.new) }
{
    law_lanes::laws::each_script_on_lanes_has_a_run();
    law_lanes::laws::each_run_tells_once();
    law_lanes::laws::each_run_remembers_its_lies();
    let mut room = match vec![in alloc; 0u8; PIECE_BYTES] {
        Ok(room) => room,
        Err(_) => return Status::Memory,
    };
    let mut text = Vec::new(alloc);
    let mut reader = ScriptReader::new(alloc);
    let status = run_pieces(&mut reader, script, room.as_mut_slice(), &mut text, report);
    drop(reader);
    status
}

/// Runs the script piece by piece, from a new reader on.
fn run_pieces<S: Source, K: Sink>(
    reader: &mut ScriptReader,
    script: &mut S,
    room: &mut [u8],
    text: &mut Vec<u8>,
    report: &mut K,
) -> Status
    requires new { reader.old ≡ record { state = no_lanes; pending = [] } }
    requires room { 0 < length room.old }
    requires small { length room.old ≤ 65536 }
    requires none { text.old.items ≡ [] }
    ensures runs { Runs (S.left script.old) (S.left script.new) (K.contents report.old)
        (K.contents report.new) result }
    ensures fits { IsRunStatus result }
    ensures causes { HasCauses result (S.faults script.old) (S.faults script.new)
        (K.faults report.old) (K.faults report.new) }
{
    law_lanes::laws::each_script_on_lanes_has_a_run();
    law_lanes::laws::each_run_tells_once();
    law_lanes::laws::each_run_remembers_its_lies();
    loop {
        match script.pull(room) {
            Pull::Bytes(count) => {
                if let Err(error) = reader.take_piece(front(room, count), text) {
                    return end_refused(error, text.as_slice(), report);
                }
                if let Pushed::Failed = push_full(text, report) {
                    return Status::WriteFault;
                }
            }
            Pull::End => {
                if let Err(error) = reader.finish(text) {
                    return end_refused(error, text.as_slice(), report);
                }
                return end_whole(reader.is_unvouched(), text.as_slice(), report);
            }
            Pull::Failed => {
                let _pushed = push_all(report, text.as_slice());
                return Status::ReadFault;
            }
        }
    }
}

/// Ends a run whose whole script is done. `unvouched` says that a line told what was not so.
fn end_whole<K: Sink>(unvouched: bool, text: &[u8], report: &mut K) -> Status
    ensures fits { IsRunStatus result }
    ensures ends { EndsWhole unvouched (K.contents report.old) (K.contents report.new)
        (K.faults report.old) (K.faults report.new) text.now result }
{
    match push_all(report, text) {
        Pushed::Whole if unvouched => Status::Unvouched,
        Pushed::Whole => Status::Done,
        Pushed::Failed => Status::WriteFault,
    }
}

/// Ends a run inside its script: the report up to the refused line is written. Where memory was
/// wanting, what waits to be written may be cut off inside a line, and is not written.
fn end_refused<K: Sink>(error: RunError, text: &[u8], report: &mut K) -> Status
    requires { IsNumbered error }
    ensures fits { IsRunStatus result }
    ensures ends { EndsRefused error (K.contents report.old) (K.contents report.new)
        (K.faults report.old) (K.faults report.new) text.now result }
{
    match error {
        RunError::Refused { line, why } => match push_all(report, text) {
            Pushed::Whole => Status::ScriptRefused {
                line,
                why: InputWhy::Line(why),
            },
            Pushed::Failed => Status::WriteFault,
        },
        RunError::Memory => Status::Memory,
    }
}
