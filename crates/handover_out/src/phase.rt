use board_record::{BoardId, Record};

/// An outlet's phase by its name alone.
#[derive(Clone, Copy, Debug, PartialEq, Eq, Hash)]
pub enum OutPhase {
    Idle,
    Moving,
    Stuck,
    Ended,
}

/// An outlet's phase with its parts.
#[derive(Debug, PartialEq, Eq, Drop)]
pub enum Phase {
    /// No handover.
    Idle,
    /// The drive is on to move the board out. `begun` says whether the board lies between the
    /// machines: then the transfer is incomplete, and else it is not started.
    Moving {
        board: Record,
        begun: bool,
    },
    /// The drive is off and the board lies between the machines. `linked` says whether its
    /// connection still stands, `stopped` whether the stop of the transport was heard in it.
    Stuck {
        board: Record,
        linked: bool,
        stopped: bool,
    },
    /// The downstream machine was told how the handover ended, and has not said its stop yet.
    Ended {
        id: BoardId,
    },
}
