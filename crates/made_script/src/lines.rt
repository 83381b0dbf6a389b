//! Which line stands where.

ghost use Rattle.std.specs.Prelude.{◌≡◌, ◌≤◌, ◌<◌, None, IfSome, slice_get};
ghost use Rattle.board_record.specs.Maker.{made_id};
ghost use Rattle.line_base.specs.declared.states.Side.TheVariants.{Entry, Exit};
ghost use Rattle.line_script.specs.declared.line.ScriptLine.TheVariants as lines;
ghost use Rattle.made_script.specs.Script.{opening, handover, undisturbed, cut_off};
ghost use Rattle.made_script.specs.Places.{part};

use board_record::{BoardId, IdMaker};
use line_base::Side;
use line_script::ScriptLine;

/// The step of a round that takes its board out again.
const LAST_STEP: usize = 13;

/// Of so many handovers the last is cut off.
const HANDOVERS: u32 = 7;

/// The line of a round at a step, counted from 0. Round 0 is what stands before the first.
pub fn line_at(round: u32, step: usize) -> Option<ScriptLine>
    ensures line { result ≡ slice_get (part round) step }
    ensures few { IfSome result (λ line. step < 14) }
{
    if round == 0 {
        return opening_line(step);
    }
    if step == 0 {
        return Some(insertion());
    }
    if step == LAST_STEP {
        return Some(ScriptLine::Remove {
            machine: 2,
            id: made_board(round),
        });
    }
    handover_line(round, step - 1)
}

/// A board is put into the first machine.
pub fn insertion() -> ScriptLine
    ensures { result ≡ lines.Insert 1 None }
{
    ScriptLine::Insert {
        machine: 1,
        barcode: None,
    }
}

fn opening_line(step: usize) -> Option<ScriptLine>
    ensures { result ≡ slice_get opening step }
{
    match step {
        0 | 1 => Some(ScriptLine::Machine {
            capacity: 4,
            used: 0,
        }),
        2 => Some(ScriptLine::Connect { machine: 2 }),
        3 => Some(exit_flow()),
        4 => Some(entry_flow()),
        _ => None,
    }
}

fn handover_line(round: u32, step: usize) -> Option<ScriptLine>
    ensures { result ≡ slice_get (handover round) step }
{
    if round % HANDOVERS == 0 {
        return cut_off_line(step);
    }
    undisturbed_line(step)
}

fn undisturbed_line(step: usize) -> Option<ScriptLine>
    ensures { result ≡ slice_get undisturbed step }
{
    match step {
        0 | 2 | 11 => Some(exit_flow()),
        1 | 10 => Some(entry_flow()),
        3 => Some(ScriptLine::Begin { gap: 1 }),
        4 | 7 => Some(ScriptLine::Sense { machine: 1 }),
        5 | 9 => Some(ScriptLine::Sense { machine: 2 }),
        6 => Some(ScriptLine::Left { gap: 1 }),
        8 => Some(ScriptLine::Enter { gap: 1 }),
        _ => None,
    }
}

fn cut_off_line(step: usize) -> Option<ScriptLine>
    ensures { result ≡ slice_get cut_off step }
{
    match step {
        0 | 2 | 10 => Some(exit_flow()),
        1 | 11 => Some(entry_flow()),
        3 => Some(ScriptLine::Begin { gap: 1 }),
        4 => Some(ScriptLine::Left { gap: 1 }),
        5 => Some(ScriptLine::Enter { gap: 1 }),
        6 => Some(ScriptLine::Cut { gap: 1 }),
        7 => Some(ScriptLine::Notice {
            machine: 1,
            side: Side::Exit,
        }),
        8 => Some(ScriptLine::Notice {
            machine: 2,
            side: Side::Entry,
        }),
        9 => Some(ScriptLine::Connect { machine: 2 }),
        _ => None,
    }
}

/// The oldest text arrives at the exit of the first machine.
fn exit_flow() -> ScriptLine
    ensures { result ≡ lines.Flow 1 Exit None }
{
    ScriptLine::Flow {
        machine: 1,
        side: Side::Exit,
        bytes: None,
    }
}

/// The oldest text arrives at the entry of the second machine.
fn entry_flow() -> ScriptLine
    ensures { result ≡ lines.Flow 2 Entry None }
{
    ScriptLine::Flow {
        machine: 2,
        side: Side::Entry,
        bytes: None,
    }
}

/// The board that the first machine makes as its `count`-th.
fn made_board(count: u32) -> BoardId
    requires { 1 ≤ count }
    ensures { result ≡ made_id 1 count }
{
    IdMaker::new(1, u64::from(count) - 1).next().unwrap()
}
