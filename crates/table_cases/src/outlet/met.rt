//! What the words of a case mean to an outlet.

ghost use Rattle.std.specs.Prelude.{IfSome};
ghost use Rattle.handover_out.specs.State.{OutState};
ghost use Rattle.handover_out.specs.Given.{IsGiven};

use crate::outlet::told;
use crate::words::{event_of, record};
use board_record::BoardId;
use handover_out::{OutInput, OutPhase, Outlet};
use line_base::Transfer;
use std::alloc::Global;
use std::io;
use std::io::Write;

/// Meets a word, and appends what the outlet does. Nothing is met where the word has no meaning,
/// and at what the machine doesn't say in this state.
pub fn meet(alloc: Global, outlet: &mut Outlet, word: &str, to: &mut Vec<u8>) -> io::Result<()> {
    match input_of(alloc, outlet, word) {
        Some(input) => {
            let answer = outlet.apply(input);
            let told = told::answer(&answer, to);
            // by name, as in `tell`
            drop(answer);
            told
        }
        None => write!(to, "nothing is met"),
    }
}

fn input_of(alloc: Global, outlet: &Outlet, word: &str) -> Option<OutInput>
    ensures { IfSome result (λ input. IsGiven outlet.now input) }
{
    if let Some((what, number)) = word.split_once(':') {
        let id = BoardId::of(number.parse().unwrap_or(0));
        return numbered_input(alloc, outlet, what, id);
    }
    if word == "revoke" {
        return revoke(outlet);
    }
    plain_input(word)
}

/// A word about a board, which is parted from the board's number by a colon.
fn numbered_input(alloc: Global, outlet: &Outlet, what: &str, id: BoardId) -> Option<OutInput>
    ensures { IfSome result (λ input. IsGiven outlet.now input) }
{
    if what == "offer" {
        return offer(outlet, id);
    }
    if what == "start" {
        return start(alloc, outlet, id);
    }
    let state = state_of(what)?;
    Some(OutInput::Stop { state, id })
}

fn offer(outlet: &Outlet, id: BoardId) -> Option<OutInput>
    ensures { IfSome result (λ input. IsGiven outlet.now input) }
{
    if outlet.phase() == OutPhase::Idle && outlet.offered().is_none() {
        Some(OutInput::Offer(id))
    } else {
        None
    }
}

fn revoke(outlet: &Outlet) -> Option<OutInput>
    ensures { IfSome result (λ input. IsGiven outlet.now input) }
{
    outlet.together();
    if outlet.offered().is_some() {
        Some(OutInput::Revoke)
    } else {
        None
    }
}

/// A start brings the board exactly where it opens.
fn start(alloc: Global, outlet: &Outlet, id: BoardId) -> Option<OutInput>
    ensures { IfSome result (λ input. IsGiven outlet.now input) }
{
    if !outlet.would_open(id) {
        return Some(OutInput::Start { id, board: None });
    }
    let board = Some(record(alloc, id)?);
    Some(OutInput::Start { id, board })
}

/// The states are named by the number that StopTransport carries.
fn state_of(word: &str) -> Option<Transfer> {
    match word {
        "stop1" => Some(Transfer::NotStarted),
        "stop2" => Some(Transfer::Incomplete),
        "stop3" => Some(Transfer::Complete),
        _ => None,
    }
}

/// What may be met in every state.
fn plain_input(word: &str) -> Option<OutInput>
    ensures { (s : OutState) → IfSome result (IsGiven s) }
{
    match word {
        "ready" => Some(OutInput::MachineReady),
        "unready" => Some(OutInput::RevokeMachineReady),
        "fault" => Some(OutInput::Fault),
        "close" => Some(OutInput::Closed),
        _ => Some(OutInput::Sensed(event_of(word)?)),
    }
}
