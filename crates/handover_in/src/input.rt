use board_record::{BoardId, Record};
use line_base::{SensorEvent, Transfer};

/// What an intake meets.
#[derive(Debug, PartialEq, Eq, Drop)]
pub enum InInput {
    /// The machine is ready for a board.
    Ready,
    /// The machine is not ready any more.
    Unready,
    /// The machine starts the transport of the offered board.
    Start,
    /// BoardAvailable was heard, with the board's record.
    BoardAvailable(Record),
    /// RevokeBoardAvailable was heard.
    RevokeBoardAvailable,
    /// TransportFinished was heard: how the handover ended upstream.
    Finished { state: Transfer, id: BoardId },
    /// A sensor event of the entry.
    Sensed(SensorEvent),
    /// The entry's drive failed.
    Fault,
    /// The connection was closed.
    Closed,
    /// A new connection stands: both machines have shaken hands.
    Stand,
}
