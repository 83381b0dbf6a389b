//! What the words of a case mean to an intake.

ghost use Rattle.std.specs.Prelude.{IfSome};
ghost use Rattle.handover_in.specs.State.{InState};
ghost use Rattle.handover_in.specs.Given.{IsGiven};

use crate::intake::told;
use crate::words::{event_of, record};
use board_record::BoardId;
use handover_in::{InInput, InPhase, Intake};
use line_base::Transfer;
use std::alloc::Global;
use std::io;
use std::io::Write;

/// Meets a word, and appends what the intake does. Nothing is met where the word has no meaning,
/// and at what the machine doesn't say in this state.
pub fn meet(alloc: Global, intake: &mut Intake, word: &str, to: &mut Vec<u8>) -> io::Result<()> {
    match input_of(alloc, intake, word) {
        Some(input) => {
            let answer = intake.apply(input);
            let told = told::answer(&answer, to);
            // by name, as in `tell`
            drop(answer);
            told
        }
        None => write!(to, "nothing is met"),
    }
}

fn input_of(alloc: Global, intake: &Intake, word: &str) -> Option<InInput>
    ensures { IfSome result (λ input. IsGiven intake.now input) }
{
    if word == "ready" {
        return ready(intake);
    }
    if word == "unready" {
        return unready(intake);
    }
    if word == "start" {
        return start(intake);
    }
    plain_input(alloc, word)
}

fn ready(intake: &Intake) -> Option<InInput>
    ensures { IfSome result (λ input. IsGiven intake.now input) }
{
    if intake.phase() == InPhase::Idle && !intake.ready() {
        Some(InInput::Ready)
    } else {
        None
    }
}

fn unready(intake: &Intake) -> Option<InInput>
    ensures { IfSome result (λ input. IsGiven intake.now input) }
{
    intake.together();
    if intake.ready() {
        Some(InInput::Unready)
    } else {
        None
    }
}

fn start(intake: &Intake) -> Option<InInput>
    ensures { IfSome result (λ input. IsGiven intake.now input) }
{
    intake.together();
    if intake.ready() && intake.offer().is_some() {
        Some(InInput::Start)
    } else {
        None
    }
}

/// What may be met in every state.
fn plain_input(alloc: Global, word: &str) -> Option<InInput>
    ensures { (s : InState) → IfSome result (IsGiven s) }
{
    match word {
        "revoke" => Some(InInput::RevokeBoardAvailable),
        "fault" => Some(InInput::Fault),
        "close" => Some(InInput::Closed),
        "stand" => Some(InInput::Stand),
        _ => numbered_input(alloc, word),
    }
}

/// A message about a board: its word and the board's number are parted by a colon. The ends are
/// named by the number that TransportFinished carries.
fn numbered_input(alloc: Global, word: &str) -> Option<InInput>
    ensures { (s : InState) → IfSome result (IsGiven s) }
{
    match word.split_once(':') {
        Some((what, number)) => message(alloc, what, BoardId::of(number.parse().unwrap_or(0))),
        None => Some(InInput::Sensed(event_of(word)?)),
    }
}

fn message(alloc: Global, what: &str, id: BoardId) -> Option<InInput>
    ensures { (s : InState) → IfSome result (IsGiven s) }
{
    if what == "offer" {
        return Some(InInput::BoardAvailable(record(alloc, id)?));
    }
    let state = state_of(what)?;
    Some(InInput::Finished { state, id })
}

fn state_of(word: &str) -> Option<Transfer> {
    match word {
        "end1" => Some(Transfer::NotStarted),
        "end2" => Some(Transfer::Incomplete),
        "end3" => Some(Transfer::Complete),
        _ => None,
    }
}
