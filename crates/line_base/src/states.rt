//! The enumerations of messages, sensors and sides.

/// How far a transfer got, as one end tells the other.
#[derive(Clone, Copy, Debug, PartialEq, Eq, Hash)]
pub enum Transfer {
    NotStarted,
    Incomplete,
    Complete,
}

/// How far a transfer got, as the intake's own sensors saw it.
#[derive(Clone, Copy, Debug, PartialEq, Eq, Hash)]
pub enum Seen {
    NotStarted,
    Incomplete,
    Complete,
    /// The board was taken out by hand.
    Taken,
}

/// Whether a board is known to be good or failed.
#[derive(Clone, Copy, Debug, PartialEq, Eq, Hash)]
pub enum Quality {
    Unknown,
    Good,
    Failed,
}

/// Which side of a board is up.
#[derive(Clone, Copy, Debug, PartialEq, Eq, Hash)]
pub enum Flip {
    Unknown,
    TopUp,
    BottomUp,
}

/// How grave a notification is.
#[derive(Clone, Copy, Debug, PartialEq, Eq, Hash)]
pub enum Severity {
    Fatal,
    Error,
    Warning,
    Info,
}

/// The code of a notification.
#[derive(Clone, Copy, Debug, PartialEq, Eq, Hash)]
pub struct Code {
    pub number: u32,
}

/// A machine's two sides: boards come in at the entry and go out at the exit.
#[derive(Clone, Copy, Debug, PartialEq, Eq, Hash)]
pub enum Side {
    Entry,
    Exit,
}

/// A machine's part on a connection: the upstream machine is the server.
#[derive(Clone, Copy, Debug, PartialEq, Eq, Hash)]
pub enum Role {
    Upstream,
    Downstream,
}

/// What a sensor at a gap sees of a board.
#[derive(Clone, Copy, Debug, PartialEq, Eq, Hash)]
pub enum SensorEvent {
    /// The board has begun to leave the upstream machine.
    Begun,
    /// The board has left the upstream machine.
    Left,
    /// The board is wholly inside the downstream machine.
    Full,
    /// The board went back into the upstream machine.
    Back,
    /// The board was taken out of the gap by hand.
    Taken,
}
