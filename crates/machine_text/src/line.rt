ghost use Rattle.std.specs.Prelude.{◌≡◌, true, false, Ok, Err, IfErr, IfOk, IsErr, OnOk};
ghost use Rattle.node_core.specs.May.{may_do};
ghost use Rattle.node_panel.specs.Inputs.{input_of, sensed_of};
ghost use Rattle.machine_port.specs.Port.{HasStepped, made_after, may_take};
ghost use Rattle.machine_text.specs.Lines.{DoesLine, asked_by, events_of, line_answer, step_asked};

use board_record::Sensed;
use line_base::{Memory, Moment};
use line_script::{LineError, LineWhy};
use machine_port::{NotDone, Port};
use node_core::No;
use node_panel::{PanelLine, input_of, read_panel_line};
use std::alloc::Global;

/// Why a line asks a machine for no step.
#[derive(Clone, Copy, Debug, PartialEq, Eq)]
pub enum NotAsked {
    /// The panel refuses it, for this reason.
    Refused(LineWhy),
    /// It is empty, or a comment.
    Blank,
    /// It is `connect`, `show` or `end`: for who owns the sockets, the screen and the program.
    Outside,
}

/// Why the step of a line isn't made.
#[derive(Clone, Copy, Debug, PartialEq, Eq)]
pub enum LineNotDone {
    /// It asks for none.
    NotAsked(NotAsked),
    /// The machine can't take its input now, for this reason.
    No(No),
    /// Memory was wanting, in this step or before it.
    Memory,
}

/// Makes the step that one line of a panel asks for, given without its line end.
///
/// `NotAsked` where it asks for none, else `No` where the machine can't take its input now. `Memory`
/// may stand in place of these and of done; where it comes of the step itself the port is spent. At
/// `NotAsked` and `No` nothing changes.
#[tactic(auto, using(crate::proofs::Doing::does_line))]
pub fn do_line(
    alloc: Global,
    port: &mut Port,
    line: &[u8],
    moment: Moment,
) -> Result<(), LineNotDone>
    ensures not_asked { IfErr (asked_by line.now) (λ why. ¬ (result ≡ Err LineNotDone.Memory)
        → result ≡ Err (LineNotDone.NotAsked why)) }
    ensures no { IfOk (asked_by line.now)
        (λ asked. port.old.spent ≡ false → IfErr (may_take port.old (input_of asked))
        (λ why. ¬ (result ≡ Err LineNotDone.Memory) → result ≡ Err (LineNotDone.No why))) }
    ensures memory { IfOk (asked_by line.now)
        (λ asked. may_take port.old (input_of asked) ≡ may_do
        → IfErr result (λ why. why ≡ LineNotDone.Memory)) }
    ensures stays { IfErr result (λ why. ¬ (why ≡ LineNotDone.Memory) → port.new ≡ port.old) }
    ensures lost { result ≡ Err LineNotDone.Memory → port.new.spent ≡ false
        → port.new ≡ port.old }
    ensures again { port.old.spent ≡ true → IsErr result }
    ensures counted { IfOk (asked_by line.now)
        (λ asked. port.old.spent ≡ false → port.new.spent ≡ true
        → port.new.made ≡ made_after (input_of asked) port.old.made) }
    ensures still { port.old.spent ≡ true → port.new ≡ port.old }
    ensures does { OnOk result (DoesLine line.now moment port.old port.new) }
{
    match asked_by(alloc, line) {
        Ok(Ok(asked)) => do_asked(port, asked, moment),
        Ok(Err(why)) => Err(LineNotDone::NotAsked(why)),
        Err(Memory) => Err(LineNotDone::Memory),
    }
}

/// What a line asks for, or why it asks for no step.
#[tactic(auto, unfolding(crate::specs::Lines::asked_by))]
fn asked_by(alloc: Global, line: &[u8]) -> Result<Result<PanelLine, NotAsked>, Memory>
    ensures { IfOk result (λ asked. asked ≡ asked_by line.now) }
{
    match read_panel_line(alloc, line) {
        Ok(asked) => Ok(step_asked(asked)),
        Err(LineError::Refused(why)) => Ok(Err(NotAsked::Refused(why))),
        Err(LineError::Memory) => Err(Memory),
    }
}

/// A line that asks for a step.
fn step_asked(asked: PanelLine) -> Result<PanelLine, NotAsked>
    ensures { result ≡ step_asked (Ok asked) }
{
    match asked {
        PanelLine::Blank => Err(NotAsked::Blank),
        PanelLine::Connect | PanelLine::Show | PanelLine::End => Err(NotAsked::Outside),
        asked => Ok(asked),
    }
}

/// The event that a line has read.
fn event_of(asked: &PanelLine) -> Option<Sensed>
    ensures { events_of result ≡ sensed_of asked.now }
{
    match asked {
        PanelLine::Sense { sensed } => Some(*sensed),
        _ => None,
    }
}

/// The step of a line.
fn do_asked(port: &mut Port, asked: PanelLine, moment: Moment) -> Result<(), LineNotDone>
    ensures spent { port.old.spent ≡ true → result ≡ Err LineNotDone.Memory }
    ensures no { port.old.spent ≡ false → IfErr (may_take port.old (input_of asked))
        (λ why. result ≡ Err (LineNotDone.No why)) }
    ensures stays { IfErr result (λ why. ¬ (why ≡ LineNotDone.Memory) → port.new ≡ port.old) }
    ensures memory { port.old.spent ≡ false → may_take port.old (input_of asked) ≡ may_do
        → IfErr result (λ why. why ≡ LineNotDone.Memory) }
    ensures lost { result ≡ Err LineNotDone.Memory → port.new.spent ≡ true }
    ensures counted { port.old.spent ≡ false → port.new.spent ≡ true
        → port.new.made ≡ made_after (input_of asked) port.old.made }
    ensures still { port.old.spent ≡ true → port.new ≡ port.old }
    ensures stepped { OnOk result
        (HasStepped (sensed_of asked) (input_of asked) moment port.old port.new) }
{
    let event = event_of(&asked);
    let input = input_of(asked);
    match event {
        Some(event) => done(port.step(&[event], input, moment)),
        None => done(port.step(&[], input, moment)),
    }
}

/// What a step answers, as its line is told.
fn done(answer: Result<(), NotDone>) -> Result<(), LineNotDone>
    ensures { result ≡ line_answer answer }
{
    match answer {
        Ok(()) => Ok(()),
        Err(NotDone::No(why)) => Err(LineNotDone::No(why)),
        Err(NotDone::Memory) => Err(LineNotDone::Memory),
    }
}
