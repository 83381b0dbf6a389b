use board_record::{BoardId, Sensed};
use hermes_vertical::Question;
use line_base::{Quality, Side, Text};
use smema_bridge::SegmentLine;

/// What one line of a panel asks of its machine.
#[derive(Debug, PartialEq, Eq, Drop)]
pub enum PanelLine {
    /// Nothing: an empty line, or a comment.
    Blank,
    /// A new board at the back, maybe with a top barcode.
    Insert {
        barcode: Option<Text>,
    },
    /// A board taken out.
    Remove {
        id: BoardId,
    },
    /// A new board in the place of another.
    Replace {
        id: BoardId,
    },
    /// A board is known to be good or failed.
    Mark {
        id: BoardId,
        quality: Quality,
    },
    /// A circuit more of a board that is a panel: its place on it, and maybe its barcode.
    Sub {
        id: BoardId,
        pos: u32,
        barcode: Option<Text>,
    },
    /// No boards are handed over at this side from now on.
    Hold {
        side: Side,
    },
    /// Boards are handed over at this side again.
    Go {
        side: Side,
    },
    /// The segment of the bridge switches one of its signals.
    Signal {
        line: SegmentLine,
        on: bool,
    },
    /// A connection to the upstream neighbour.
    Connect,
    /// The end of both connections.
    Shutdown,
    /// A tick of the clock.
    Tick,
    /// The drive of this side fails.
    Fault {
        side: Side,
    },
    /// A sensor of this side saw this.
    Sense {
        sensed: Sensed,
    },
    /// The downstream neighbour is told which board will come.
    Forecast,
    /// The upstream neighbour is asked for the board with this top barcode.
    Query {
        barcode: Text,
    },
    /// The supervisor is asked for a work order.
    Ask {
        question: Question,
    },
    /// What the machine keeps and holds.
    Show,
    /// The end of the run.
    End,
}
