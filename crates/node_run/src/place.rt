ghost use Rattle.std.specs.Prelude.{◌≡◌};
ghost use Rattle.node_run.specs.Next.{IsTurnLeft, place_behind, turn_behind};

use crate::status::NodeStatus;
use config_service::Settings;
use line_base::Side;
use line_outside::{Address, Way};

/// A place of a run: four before its first turn, and those of each turn.
#[derive(Clone, Copy)]
pub enum Place {
    ListenPanel,
    ListenDownstream,
    ListenSupervisory,
    ListenConfiguration,
    PollPanel,
    PollUpstream,
    PollDownstream,
    PollSupervisory,
    PollConfiguration,
    SendPanel,
    SendUpstream,
    SendDownstream,
    SendSupervisory,
    SendConfiguration,
    TurnDone,
}

/// What comes next in a run.
#[derive(Clone, Copy)]
pub enum Next {
    /// It ends.
    End(NodeStatus),
    /// The next of the panel's lines.
    Line,
    /// The next of the supervisor's messages.
    Hear,
    /// The next of the configuration service's messages.
    HearConfig,
    /// The panel is polled before what was found of a neighbour is taken.
    Look,
    /// What was found of a neighbour is taken.
    Take,
    /// Nothing is to do at this place.
    Skip,
    Listen(Way, Address),
    /// The port of these settings is listened at, and then they are taken.
    Try(Settings),
    /// A side is reset, whose setting changed.
    Reset(Side),
    Connect(Address),
    Poll(Way),
    Send(Way),
    Refuse(Way),
    Close(Way),
}

impl Place {
    /// The place behind this one.
    pub fn behind(self) -> Place
        ensures { result ≡ place_behind self }
    {
        match self {
            Place::ListenPanel => Place::ListenDownstream,
            Place::ListenDownstream => Place::ListenSupervisory,
            Place::ListenSupervisory => Place::ListenConfiguration,
            Place::ListenConfiguration => Place::PollPanel,
            Place::PollPanel => Place::PollUpstream,
            Place::PollUpstream => Place::PollDownstream,
            Place::PollDownstream => Place::PollSupervisory,
            Place::PollSupervisory => Place::PollConfiguration,
            Place::PollConfiguration => Place::SendPanel,
            Place::SendPanel => Place::SendUpstream,
            Place::SendUpstream => Place::SendDownstream,
            Place::SendDownstream => Place::SendSupervisory,
            Place::SendSupervisory => Place::SendConfiguration,
            Place::SendConfiguration => Place::TurnDone,
            Place::TurnDone => Place::PollPanel,
        }
    }

    /// The turn behind this place, of at most so many turns.
    pub fn turn_behind(self, turn: u64, turns: u64) -> u64
        requires { IsTurnLeft self turn turns }
        ensures { result ≡ turn_behind self turn }
    {
        match self {
            Place::TurnDone => turn + 1,
            Place::ListenPanel
            | Place::ListenDownstream
            | Place::ListenSupervisory
            | Place::ListenConfiguration
            | Place::PollPanel
            | Place::PollUpstream
            | Place::PollDownstream
            | Place::PollSupervisory
            | Place::PollConfiguration
            | Place::SendPanel
            | Place::SendUpstream
            | Place::SendDownstream
            | Place::SendSupervisory
            | Place::SendConfiguration => turn,
        }
    }
}
