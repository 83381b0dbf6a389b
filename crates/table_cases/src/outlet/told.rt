//! How an answer and an outlet are told.

use crate::words::number_of;
use board_record::Record;
use handover_out::{OutAct, OutBreach, OutDeed, OutPhase, OutSend, Outlet};
use std::io;
use std::io::Write;

/// Appends what an outlet did: its deed, with the record that it gives back, then what it sends,
/// then what it does with its drive.
pub fn answer(answer: &Result<OutAct, OutBreach>, to: &mut Vec<u8>) -> io::Result<()> {
    match answer {
        Ok(act) => act_of(act, to),
        Err(breach) => write!(to, "{breach}"),
    }
}

fn act_of(act: &OutAct, to: &mut Vec<u8>) -> io::Result<()> {
    write!(to, "done")?;
    if let Some(deed) = &act.deed {
        deed_of(*deed, to)?;
    }
    if let Some(board) = &act.back {
        given_back(board, to)?;
    }
    if let Some(sent) = &act.send {
        sent_of(*sent, to)?;
    }
    match act.drive {
        Some(true) => write!(to, ", drive on"),
        Some(false) => write!(to, ", drive off"),
        None => Ok(()),
    }
}

fn deed_of(deed: OutDeed, to: &mut Vec<u8>) -> io::Result<()> {
    match deed {
        OutDeed::Opens(id) => write!(to, ", opens {}", id.number()),
        OutDeed::Refuses(id) => write!(to, ", refuses {}", id.number()),
        OutDeed::Leaves(id) => write!(to, ", leaves {}", id.number()),
        OutDeed::Returns(id) => write!(to, ", returns {}", id.number()),
        OutDeed::Loses(id) => write!(to, ", loses {}", id.number()),
    }
}

/// A record of which nothing is known but its id and its maker.
fn given_back(board: &Record, to: &mut Vec<u8>) -> io::Result<()> {
    write!(to, ", gives back {} of ", board.id.number())?;
    Ok(to.extend_from_slice(board.created_by.bytes())?)
}

fn sent_of(sent: OutSend, to: &mut Vec<u8>) -> io::Result<()> {
    match sent {
        OutSend::BoardAvailable => write!(to, ", sends BoardAvailable"),
        OutSend::RevokeBoardAvailable => write!(to, ", sends RevokeBoardAvailable"),
        OutSend::Finished { state, id } => {
            write!(
                to,
                ", sends TransportFinished {} {}",
                number_of(state),
                id.number()
            )
        }
    }
}

/// Appends how an outlet stands, as its views tell it.
pub fn stands(outlet: &Outlet, to: &mut Vec<u8>) -> io::Result<()> {
    write!(to, "; {}", phase_of(outlet.phase()))?;
    if let Some(board) = outlet.holds() {
        write!(to, ", holds {}", board.id.number())?;
    }
    if outlet.stopped() {
        write!(to, ", stopped")?;
    }
    if let Some(id) = outlet.offered() {
        write!(to, ", offered {}", id.number())?;
    }
    if let Some(id) = outlet.touched() {
        write!(to, ", touched {}", id.number())?;
    }
    if outlet.ready() {
        write!(to, ", ready")?;
    }
    Ok(())
}

fn phase_of(phase: OutPhase) -> &'static str {
    match phase {
        OutPhase::Idle => "Idle",
        OutPhase::Moving => "Moving",
        OutPhase::Stuck => "Stuck",
        OutPhase::Ended => "Ended",
    }
}
