ghost use Rattle.std.specs.Prelude.{◌≡◌};
ghost use Rattle.line_report.specs.Texts.{no_text as no_words};

use board_record::{BoardId, Sensed};
use line_base::{Quality, Side, Text};
use line_world::{Move, MoveNo};
use node_core::{Act, No};

/// Why a line of a script does nothing.
#[derive(Debug, PartialEq, Eq, Drop)]
pub enum Reason {
    /// The machine's own reason.
    Node(No),
    /// The floor refuses the move.
    Move(MoveNo),
    /// There is no machine of that number.
    NoSuchMachine,
    /// The line has 64 machines.
    LineFull,
    /// The line has no such lane.
    NoLane,
    /// A line with machines gets no other number of lanes.
    MachinesStand,
    /// The machine keeps the board's record, but the board itself lies elsewhere.
    NotHere,
    /// There is no machine at that side.
    NoNeighbour,
    /// No bytes are on their way to that side.
    NothingInFlight,
    /// The machine's sensors saw nothing that it has not read.
    NothingToRead,
    /// The link at that side stands.
    Standing,
    /// Bytes are on their way to that side.
    TextInFlight,
    /// The question was answered before, by this work order.
    Answered(Text),
}

/// One thing that a line of a script does. Each is one line of the report.
#[derive(Debug, Drop)]
pub enum Happening {
    /// The line has so many lanes from now on.
    Lanes {
        count: u32,
    },
    /// A machine was added at the line's end.
    Machine {
        number: u32,
        capacity: u32,
    },
    /// A bridge was added at the line's end.
    Bridge {
        number: u32,
        capacity: u32,
    },
    /// A machine did this. It is never the switching of a drive.
    Done {
        machine: u32,
        act: Act,
    },
    /// The link at the gap was cut.
    Cut {
        gap: u32,
    },
    /// A machine lost its power: what comes of it is told behind this.
    Stop {
        machine: u32,
    },
    /// What flows to that side was spoiled.
    Spoils {
        machine: u32,
        side: Side,
    },
    /// A board on the floor was moved.
    Moved {
        gap: u32,
        step: Move,
    },
    /// A machine's sensors told what was not so.
    Lie {
        machine: u32,
        sensed: Sensed,
    },
    /// A board came out of a bridge's segment, or went into it, and no sensor saw it.
    Unseen {
        machine: u32,
        side: Side,
    },
    /// From now on nobody vouches for the standings.
    Unvouched,
    /// The line can't be done.
    No(Reason),
    /// A machine keeps this board.
    Shown {
        machine: u32,
        id: BoardId,
        quality: Quality,
    },
    /// This board is in the handover at the gap.
    ShownBetween {
        gap: u32,
        id: BoardId,
    },
    /// A board's record stands with a machine from now on.
    With {
        machine: u32,
        id: BoardId,
    },
    /// A board's record stands in the handover at the gap from now on.
    Between {
        gap: u32,
        id: BoardId,
    },
    /// A board's record stands nowhere from now on.
    Gone {
        id: BoardId,
    },
}

/// A happening on a lane, 1 to 4. What is of all lanes is told of lane 1.
#[derive(Debug, Drop)]
pub struct LaneHappening {
    pub lane: u32,
    pub what: Happening,
}

/// A machine's own reason in words.
pub(crate) fn no_text(no: No) -> &'static str
    ensures { result.now ≡ no_words no }
{
    match no {
        No::IntakeOpen => "intake open",
        No::Full => "full",
        No::IdsUsedUp => "ids used up",
        No::NotKept => "not kept",
        No::Offered => "offered",
        No::Same => "same",
        No::Connected => "connected",
        No::IntakeUnsettled => "intake unsettled",
        No::NotConnected => "not connected",
        No::NoHandover => "no handover",
        No::Bridge => "bridge",
        No::NotABridge => "not a bridge",
        No::NotStanding => "not standing",
        No::NotSupported => "not supported",
        No::NothingKept => "nothing kept",
        No::NotSupervised => "not supervised",
        No::QueriesFull => "queries full",
        No::UnknownQuery => "unknown query",
        No::Answered(_) => "answered",
        No::SubsFull => "subs full",
        No::NoLane => "no lane",
        No::WasOffered => "was offered",
    }
}
