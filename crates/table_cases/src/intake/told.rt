//! How an answer and an intake are told.

use crate::words::number_of;
use board_record::Record;
use handover_in::{InAct, InBreach, InDeed, InPhase, InSend, Intake};
use line_base::Seen;
use std::io;
use std::io::Write;

/// Appends what an intake did: its deed, with the record that it hands on and whether the board
/// was taken out, then what it sends, then what it does with its drive.
pub fn answer(answer: &Result<InAct, InBreach>, to: &mut Vec<u8>) -> io::Result<()> {
    match answer {
        Ok(act) => act_of(act, to),
        Err(breach) => write!(to, "{breach}"),
    }
}

fn act_of(act: &InAct, to: &mut Vec<u8>) -> io::Result<()> {
    write!(to, "done")?;
    if let Some(deed) = &act.deed {
        deed_of(*deed, to)?;
    }
    if let Some(board) = &act.keep {
        kept(board, to)?;
    }
    if act.taken {
        write!(to, ", taken out")?;
    }
    if let Some(sent) = &act.send {
        sent_of(*sent, to)?;
    }
    match act.drive {
        Some(true) => write!(to, ", drive on"),
        Some(false) => write!(to, ", drive off"),
        None => Ok(()),
    }
}

fn deed_of(deed: InDeed, to: &mut Vec<u8>) -> io::Result<()> {
    match deed {
        InDeed::Starts(id) => write!(to, ", starts {}", id.number()),
        InDeed::Settles(id) => write!(to, ", settles {}", id.number()),
        InDeed::Drops(id) => write!(to, ", drops {}", id.number()),
    }
}

/// A record of which nothing is known but its id and its maker.
fn kept(board: &Record, to: &mut Vec<u8>) -> io::Result<()> {
    write!(to, ", keeps {} of ", board.id.number())?;
    Ok(to.extend_from_slice(board.created_by.bytes())?)
}

fn sent_of(sent: InSend, to: &mut Vec<u8>) -> io::Result<()> {
    match sent {
        InSend::MachineReady => write!(to, ", sends MachineReady"),
        InSend::RevokeMachineReady => write!(to, ", sends RevokeMachineReady"),
        InSend::Start(id) => write!(to, ", sends StartTransport {}", id.number()),
        InSend::Stop { state, id } => {
            write!(
                to,
                ", sends StopTransport {} {}",
                number_of(state),
                id.number()
            )
        }
    }
}

/// Appends how an intake stands, as its views tell it.
pub fn stands(intake: &Intake, to: &mut Vec<u8>) -> io::Result<()> {
    write!(to, "; {}", phase_of(intake.phase()))?;
    if let Some(board) = intake.holds() {
        write!(to, ", holds {}", board.id.number())?;
    }
    if let Some(own) = intake.own() {
        write!(to, ", saw {}", own_of(own))?;
    }
    if intake.heard() {
        write!(to, ", heard")?;
    }
    if let Some(board) = intake.offer() {
        write!(to, ", offer {}", board.id.number())?;
    }
    if intake.ready() {
        write!(to, ", ready")?;
    }
    if intake.may_connect() {
        write!(to, ", may connect")?;
    }
    Ok(())
}

fn phase_of(phase: InPhase) -> &'static str {
    match phase {
        InPhase::Idle => "Idle",
        InPhase::Taking => "Taking",
        InPhase::Stopped => "Stopped",
        InPhase::Waiting => "Waiting",
    }
}

fn own_of(own: Seen) -> &'static str {
    match own {
        Seen::NotStarted => "NotStarted",
        Seen::Incomplete => "Incomplete",
        Seen::Complete => "Complete",
        Seen::Taken => "Taken",
    }
}
