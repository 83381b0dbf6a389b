use board_record::Record;
use line_base::{Seen, Transfer};

/// An intake's phase by its name alone.
#[derive(Clone, Copy, Debug, PartialEq, Eq, Hash)]
pub enum InPhase {
    Idle,
    Taking,
    Stopped,
    Waiting,
}

/// An intake's phase with its parts. `own` is what its sensors saw of the board.
#[derive(Debug, PartialEq, Eq, Drop)]
pub enum Phase {
    /// No handover.
    Idle,
    /// The drive is on to take the board in. `heard` says whether the upstream machine said that
    /// the board has left.
    Taking {
        board: Record,
        own: Seen,
        heard: bool,
    },
    /// The drive is off and the stop was said. `heard` is how the upstream machine said that the
    /// handover ended, once it did.
    Stopped {
        board: Record,
        own: Seen,
        heard: Option<Transfer>,
    },
    /// The connection is closed, and the sensors or a new connection tell what becomes of the
    /// board. `heard` says whether the upstream machine said that the board has left.
    Waiting {
        board: Record,
        own: Seen,
        heard: bool,
    },
}
