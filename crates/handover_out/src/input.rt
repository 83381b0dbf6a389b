use board_record::{BoardId, Record};
use line_base::{SensorEvent, Transfer};

/// What an outlet meets.
#[derive(Debug, PartialEq, Eq, Drop)]
pub enum OutInput {
    /// The machine offers its front board.
    Offer(BoardId),
    /// The machine takes its offer back.
    Revoke,
    /// MachineReady was heard.
    MachineReady,
    /// RevokeMachineReady was heard.
    RevokeMachineReady,
    /// StartTransport was heard. The board is there exactly where this opens the outlet.
    Start { id: BoardId, board: Option<Record> },
    /// StopTransport was heard. Its state decides nothing: the outlet trusts its own sensors.
    Stop { state: Transfer, id: BoardId },
    /// A sensor event of the exit.
    Sensed(SensorEvent),
    /// The exit's drive failed.
    Fault,
    /// The connection was closed.
    Closed,
}
