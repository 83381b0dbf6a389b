//! The reasons of the cases, by their words.

use crate::acts::order_of;
use crate::values::parted;
use line_base::Memory;
use line_report::Reason;
use line_world::MoveNo;
use node_core::No;
use std::alloc::Global;

/// The reason of a word. Behind `Answered` the answer that was there before may be spelled.
pub fn reason_of(alloc: Global, words: &str) -> Result<Reason, Memory> {
    match parted(words) {
        ("Answered", "") => Ok(Reason::Node(No::Answered(1))),
        ("Answered", spelled) => Ok(Reason::Answered(order_of(alloc, spelled)?)),
        _ => Ok(line_reason_of(words)),
    }
}

fn line_reason_of(word: &str) -> Reason {
    match word {
        "NoSuchMachine" => Reason::NoSuchMachine,
        "LineFull" => Reason::LineFull,
        "NoLane" => Reason::NoLane,
        "MachinesStand" => Reason::MachinesStand,
        "NotHere" => Reason::NotHere,
        "NoNeighbour" => Reason::NoNeighbour,
        "NothingInFlight" => Reason::NothingInFlight,
        "NothingToRead" => Reason::NothingToRead,
        "Standing" => Reason::Standing,
        "TextInFlight" => Reason::TextInFlight,
        _ => own_reason_of(word),
    }
}

/// A machine's own reason, and else one of the floor.
fn own_reason_of(word: &str) -> Reason {
    match no_of(word) {
        Some(no) => Reason::Node(no),
        None => Reason::Move(move_no_of(word)),
    }
}

fn no_of(word: &str) -> Option<No> {
    Some(match word {
        "IntakeOpen" => No::IntakeOpen,
        "Full" => No::Full,
        "IdsUsedUp" => No::IdsUsedUp,
        "NotKept" => No::NotKept,
        "Offered" => No::Offered,
        "Same" => No::Same,
        "Connected" => No::Connected,
        "IntakeUnsettled" => No::IntakeUnsettled,
        "NotConnected" => No::NotConnected,
        "NoHandover" => No::NoHandover,
        "Bridge" => No::Bridge,
        "NotABridge" => No::NotABridge,
        "NotStanding" => No::NotStanding,
        "NotSupported" => No::NotSupported,
        "NothingKept" => No::NothingKept,
        "NotSupervised" => No::NotSupervised,
        "QueriesFull" => No::QueriesFull,
        "UnknownQuery" => No::UnknownQuery,
        "SubsFull" => No::SubsFull,
        "NoOwnLane" => No::NoLane,
        "WasOffered" => No::WasOffered,
        _ => return None,
    })
}

fn move_no_of(word: &str) -> MoveNo {
    match word {
        "NoGap" => MoveNo::NoGap,
        "ExitDriveOff" => MoveNo::ExitDriveOff,
        "GapNotFree" => MoveNo::GapNotFree,
        "NothingThere" => MoveNo::NothingThere,
        "NotBegun" => MoveNo::NotBegun,
        "EntryDriveOff" => MoveNo::EntryDriveOff,
        "NotLeft" => MoveNo::NotLeft,
        "ExitDriveOn" => MoveNo::ExitDriveOn,
        _ => MoveNo::EntryDriveOn,
    }
}
