ghost use Rattle.std.specs.Prelude.{◌≡◌};
ghost use Rattle.hermes_horizontal.specs.Parts.{kind_of, name_of};

use crate::kind::Kind;
use crate::said::Said;
use board_record::{BoardId, Record, SubBoards};
use line_base::{Code, Decimal, Flip, Moment, Name, Quality, Severity, Text, Transfer};

/// A message: what it says, and when it was sent, where it tells.
#[derive(Debug, Drop)]
pub struct Message {
    pub stamp: Option<Moment>,
    pub body: Said,
}

/// What a message of the horizontal channel says.
#[derive(Debug, PartialEq, Eq, Drop)]
pub enum Horizontal {
    /// A sign of life: asked for, answered, or neither.
    CheckAlive {
        ping: Option<Ping>,
        id: Option<Text>,
    },
    ServiceDescription(Service),
    Notification {
        code: Code,
        severity: Severity,
        text: Text,
    },
    BoardAvailable(Record),
    RevokeBoardAvailable,
    /// The quality of the boards that are taken, `Unknown` for any.
    MachineReady {
        quality: Quality,
    },
    RevokeMachineReady,
    StartTransport {
        id: BoardId,
    },
    StopTransport {
        state: Transfer,
        id: BoardId,
    },
    TransportFinished {
        state: Transfer,
        id: BoardId,
    },
    BoardForecast(Info),
    /// The barcodes of the board that is asked for.
    QueryBoardInfo {
        top: Option<Text>,
        bottom: Option<Text>,
    },
    SendBoardInfo(Info),
    /// A message of an unknown name.
    Other(Name),
}

/// The two types of CheckAlive.
#[derive(Clone, Copy, Debug, PartialEq, Eq)]
pub enum Ping {
    Ask,
    Answer,
}

/// How a machine describes itself as a connection begins.
#[derive(Debug, PartialEq, Eq, Drop)]
pub struct Service {
    pub machine: Text,
    pub lane: u32,
    pub version: Text,
    pub interface: Option<Text>,
    pub features: Features,
}

/// The features that a machine supports.
#[derive(Clone, Copy, Debug, PartialEq, Eq)]
pub struct Features {
    /// It answers CheckAlive.
    pub check_alive: bool,
    /// It takes BoardForecast.
    pub forecast: bool,
    /// It takes QueryBoardInfo.
    pub query: bool,
    /// It takes SendBoardInfo.
    pub send: bool,
}

/// What is told of a board. The fields are those of a board's record.
#[derive(Debug, PartialEq, Eq, Drop)]
pub struct Info {
    pub id: Option<BoardId>,
    pub created_by: Option<Text>,
    pub quality: Option<Quality>,
    pub flip: Option<Flip>,
    pub product: Option<Text>,
    pub top: Option<Text>,
    pub bottom: Option<Text>,
    pub length: Option<Decimal>,
    pub width: Option<Decimal>,
    pub thickness: Option<Decimal>,
    pub speed: Option<Decimal>,
    pub top_clearance: Option<Decimal>,
    pub bottom_clearance: Option<Decimal>,
    pub weight: Option<Decimal>,
    pub order: Option<Text>,
    pub batch: Option<Text>,
    pub subs: SubBoards,
}

impl Horizontal {
    /// Which message it is.
    pub fn kind(&self) -> Kind
        ensures { result ≡ kind_of self.now }
    {
        match self {
            Horizontal::CheckAlive { .. } => Kind::CheckAlive,
            Horizontal::ServiceDescription(_) => Kind::ServiceDescription,
            Horizontal::Notification { .. } => Kind::Notification,
            Horizontal::BoardAvailable(_) => Kind::BoardAvailable,
            Horizontal::RevokeBoardAvailable => Kind::RevokeBoardAvailable,
            Horizontal::MachineReady { .. } => Kind::MachineReady,
            Horizontal::RevokeMachineReady => Kind::RevokeMachineReady,
            Horizontal::StartTransport { .. } => Kind::StartTransport,
            Horizontal::StopTransport { .. } => Kind::StopTransport,
            Horizontal::TransportFinished { .. } => Kind::TransportFinished,
            Horizontal::BoardForecast(_) => Kind::BoardForecast,
            Horizontal::QueryBoardInfo { .. } => Kind::QueryBoardInfo,
            Horizontal::SendBoardInfo(_) => Kind::SendBoardInfo,
            Horizontal::Other(_) => Kind::Other,
        }
    }

    /// The name of its element.
    pub fn name(&self) -> &[u8]
        ensures { result.now ≡ name_of self.now }
    {
        match self {
            Horizontal::Other(name) => name.bytes(),
            _ => self.kind().text().as_bytes(),
        }
    }
}
