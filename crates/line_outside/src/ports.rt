ghost use Rattle.std.specs.Prelude.{◌<◌, ◌≤◌, [], ◌∷◌, Bool, ℕ, List, Option, length};
ghost use Rattle.line_outside.specs.Given.{Given, Listens, Connects, Polls, Sends, Refuses, Closes, got_bytes};
ghost use Rattle.line_outside.specs.Ports.{Gains, HasOpenCause, IsGotWithin, HasGotCause, IsQuiet, IsSentWithin, IsRefusedWithin, HasSentCause, IsStuck};
ghost use Rattle.line_outside.specs.declared.way.Way.{Way};

use crate::way::{Address, Way};

/// What came of listening or of asking for a connection.
#[derive(Clone, Copy, Debug, PartialEq, Eq)]
pub enum Opened {
    /// It is done. A connection that was asked for may still come or fail: a poll says which.
    Done,
    /// It failed.
    Failed,
}

/// What a poll of a way found.
#[derive(Clone, Copy, Debug, PartialEq, Eq)]
pub enum Got {
    /// A connection stands now.
    Arrived,
    /// Another connection came while one stands. It waits for `refuse`.
    Second,
    /// So many bytes, at least one, stand at the front of the room.
    Bytes(usize),
    /// There was nothing.
    NotYet,
    /// The connection is closed.
    Closed,
    /// The way failed.
    Failed,
}

/// What became of a piece that was to be sent.
#[derive(Clone, Copy, Debug, PartialEq, Eq)]
pub enum Sent {
    /// So many bytes of the piece were taken.
    Took(usize),
    /// No byte could be taken now.
    NotYet,
    /// The connection is closed.
    Closed,
    /// The way failed.
    Failed,
}

/// The connections of one machine. No call waits.
pub trait Ports {
    /// All calls so far with their answers, in their order, where they are told. What is once
    /// untold stays untold.
    ghost given: { Self → Option (List Given) };

    /// A count of faults. It never falls, and rises where a call fails, up to 2^64 - 1.
    ghost faults: { Self → ℕ };

    /// Whether neither a byte, a connection nor a close is there for a way, where that is told.
    ghost quiet: { Self → Way → Option Bool };

    /// Whether no byte can be taken for a way, where that is told.
    ghost stuck: { Self → Way → Option Bool };

    /// Begins to listen for connections of a way at an address of this computer.
    fn listen(&mut self, way: Way, address: Address) -> Opened
        ensures told { Gains (given self.old) (given self.new) (Listens way address result ∷ []) }
        ensures cause { HasOpenCause (faults self.old) (faults self.new) result };

    /// Asks for a connection of a way to an address.
    fn connect(&mut self, way: Way, address: Address) -> Opened
        ensures told { Gains (given self.old) (given self.new) (Connects way address result ∷ []) }
        ensures cause { HasOpenCause (faults self.old) (faults self.new) result };

    /// Looks once at what is there for a way, and puts bytes at the front of the room.
    fn poll(&mut self, way: Way, room: &mut [u8]) -> Got
        requires { 0 < length room.old }
        ensures told { Gains (given self.old) (given self.new)
            (Polls way (length room.new) (got_bytes result room.new) ∷ []) }
        ensures within { IsGotWithin (length room.new) result }
        ensures cause { HasGotCause (faults self.old) (faults self.new) result }
        ensures nothing { IsQuiet (quiet self.old way) result };

    /// Tries once to send the first bytes of a piece.
    fn send(&mut self, way: Way, piece: &[u8]) -> Sent
        requires { 0 < length piece.now }
        ensures told { Gains (given self.old) (given self.new) (Sends way piece.now result ∷ []) }
        ensures within { IsSentWithin piece.now result }
        ensures cause { HasSentCause (faults self.old) (faults self.new) result }
        ensures nothing { IsStuck (stuck self.old way) result };

    /// Tries once to send a piece to the second connection that waits, and closes that connection.
    /// An empty piece is allowed: nothing is sent then.
    fn refuse(&mut self, way: Way, piece: &[u8]) -> Sent
        ensures told { Gains (given self.old) (given self.new) (Refuses way piece.now result ∷ []) }
        ensures within { IsRefusedWithin piece.now result }
        ensures cause { HasSentCause (faults self.old) (faults self.new) result }
        ensures nothing { IsStuck (stuck self.old way) result };

    /// Closes the connection of a way.
    fn close(&mut self, way: Way)
        ensures told { Gains (given self.old) (given self.new) (Closes way ∷ []) }
        ensures cause { faults self.old ≤ faults self.new };
}
