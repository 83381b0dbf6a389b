ghost use Rattle.std.specs.Prelude.{◌≡◌};
ghost use Rattle.hermes_vertical.specs.Parts.{kind_of, name_of};

use crate::kind::VerticalKind;
use board_record::BoardId;
use hermes_horizontal::{Features, Ping};
use line_base::{Code, Moment, Name, Severity, Text};

/// A message of the supervisory channel: what it says, and when it was sent, where it tells.
#[derive(Debug, PartialEq, Eq, Drop)]
pub struct VerticalMessage {
    pub stamp: Option<Moment>,
    pub body: Vertical,
}

/// What a message of the supervisory channel says.
#[derive(Debug, PartialEq, Eq, Drop)]
pub enum Vertical {
    SupervisoryServiceDescription(System),
    /// A board came to a machine.
    BoardArrived(Passage),
    /// A board left a machine.
    BoardDeparted(Passage),
    /// A machine asks for a work order, by a number of its own.
    QueryWorkOrderInfo {
        query: u64,
        question: Question,
    },
    /// The work order that a question is answered with.
    SendWorkOrderInfo {
        query: u64,
        order: Text,
        batch: Option<Text>,
        product: Option<Text>,
    },
    /// A sign of life: asked for, answered, or neither.
    CheckAlive {
        ping: Option<Ping>,
        id: Option<Text>,
    },
    Notification {
        code: Code,
        severity: Severity,
        text: Text,
    },
    /// A message of an unknown name.
    Other(Name),
}

/// How an end of the supervisory channel describes itself.
#[derive(Debug, PartialEq, Eq, Drop)]
pub struct System {
    pub system: Text,
    pub version: Text,
    pub features: Features,
}

/// A board's arrival at a machine's lane, or its departure.
#[derive(Debug, PartialEq, Eq, Drop)]
pub struct Passage {
    pub machine: Text,
    pub lane: u32,
    pub how: Passing,
    pub id: BoardId,
}

/// How a board came or went.
#[derive(Clone, Copy, Debug, PartialEq, Eq)]
pub enum Passing {
    /// By a handover between two machines.
    Transferred,
    /// From a magazine or into one.
    Loaded,
    /// By hand: it was inserted or removed.
    ByHand,
}

/// What a work order is asked for by.
#[derive(Debug, PartialEq, Eq, Drop)]
pub enum Question {
    /// A board's barcode.
    Barcode(Text),
    /// The order's id.
    Order(Text),
    /// A slot of a magazine.
    Place { magazine: Text, slot: u32 },
}

impl Vertical {
    /// Which message it is.
    pub fn kind(&self) -> VerticalKind
        ensures { result ≡ kind_of self.now }
    {
        match self {
            Vertical::SupervisoryServiceDescription(_) => {
                VerticalKind::SupervisoryServiceDescription
            }
            Vertical::BoardArrived(_) => VerticalKind::BoardArrived,
            Vertical::BoardDeparted(_) => VerticalKind::BoardDeparted,
            Vertical::QueryWorkOrderInfo { .. } => VerticalKind::QueryWorkOrderInfo,
            Vertical::SendWorkOrderInfo { .. } => VerticalKind::SendWorkOrderInfo,
            Vertical::CheckAlive { .. } => VerticalKind::CheckAlive,
            Vertical::Notification { .. } => VerticalKind::Notification,
            Vertical::Other(_) => VerticalKind::Other,
        }
    }

    /// The name of its element.
    pub fn name(&self) -> &[u8]
        ensures { result.now ≡ name_of self.now }
    {
        match self {
            Vertical::Other(name) => name.bytes(),
            _ => self.kind().text().as_bytes(),
        }
    }
}
