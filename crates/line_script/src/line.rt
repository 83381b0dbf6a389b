ghost use Rattle.std.specs.Prelude.{◌≡◌};
ghost use Rattle.line_script.specs.Words.{why_text};

use board_record::{BoardId, Sensed};
use hermes_vertical::Question;
use line_base::{Quality, Side, Text};
use smema_bridge::SegmentLine;
use std::fmt;

/// What one line of a script asks for. Machines are numbered from 1 in downstream direction, and a
/// gap has the number of the machine above it.
#[derive(Drop)]
pub enum ScriptLine {
    /// Nothing: an empty line, or a comment.
    Blank,
    /// Another machine at the line's end, with room for so many boards, that has made `used` ids.
    Machine {
        capacity: u32,
        used: u64,
    },
    /// Another machine at the line's end, which is a bridge to a segment that speaks no Hermes.
    Bridge {
        capacity: u32,
        used: u64,
    },
    /// A new board at the back of a machine, maybe with a top barcode.
    Insert {
        machine: u32,
        barcode: Option<Text>,
    },
    /// A board taken out of a machine.
    Remove {
        machine: u32,
        id: BoardId,
    },
    /// A new board in the place of another.
    Replace {
        machine: u32,
        id: BoardId,
    },
    /// A board is known to be good or failed.
    Mark {
        machine: u32,
        id: BoardId,
        quality: Quality,
    },
    /// A circuit more of a board that is a panel: its place on it, and maybe its barcode.
    Sub {
        machine: u32,
        id: BoardId,
        pos: u32,
        barcode: Option<Text>,
    },
    /// A machine is willing to hand boards over at this side no more.
    Hold {
        machine: u32,
        side: Side,
    },
    /// A machine is willing to hand boards over at this side again.
    Go {
        machine: u32,
        side: Side,
    },
    /// The segment of a bridge switches one of its signals.
    Signal {
        machine: u32,
        line: SegmentLine,
        on: bool,
    },
    /// A machine connects to its upstream neighbour.
    Connect {
        machine: u32,
    },
    /// Bytes arrive at this side: so many, or the rest of the oldest text.
    Flow {
        machine: u32,
        side: Side,
        bytes: Option<u32>,
    },
    /// A machine finds the connection of this side closed.
    Notice {
        machine: u32,
        side: Side,
    },
    /// The link at the gap is cut.
    Cut {
        gap: u32,
    },
    /// A NUL byte is put before the next byte to arrive at this side.
    Spoil {
        machine: u32,
        side: Side,
    },
    /// A machine shuts down.
    Shutdown {
        machine: u32,
    },
    /// A machine loses its power and begins again with its records: its links are cut, and both its
    /// sides notice it.
    Stop {
        machine: u32,
    },
    /// A machine's clock ticks.
    Tick {
        machine: u32,
    },
    /// The drive of this side fails.
    Fault {
        machine: u32,
        side: Side,
    },
    /// A machine's sensors tell what was not so.
    Lie {
        machine: u32,
        sensed: Sensed,
    },
    /// A board comes in from a bridge's segment, or goes out into it, and no sensor sees it.
    Unseen {
        machine: u32,
        side: Side,
    },
    /// A machine reads what its sensors saw.
    Sense {
        machine: u32,
    },
    /// The front board of the machine above the gap begins to leave it.
    Begin {
        gap: u32,
    },
    /// The board in the gap has wholly left the upstream machine.
    Left {
        gap: u32,
    },
    /// The board in the gap is wholly inside the downstream machine.
    Enter {
        gap: u32,
    },
    /// The board in the gap goes back to the upstream machine.
    Back {
        gap: u32,
    },
    /// The board in the gap is put into the downstream machine by hand.
    HandIn {
        gap: u32,
    },
    /// The board in the gap is taken off the line by hand.
    Take {
        gap: u32,
    },
    /// What every machine keeps, in the report.
    Show,
    /// A machine is supervised from now on.
    Supervise {
        machine: u32,
    },
    /// A machine asks its supervisor for a work order.
    Ask {
        machine: u32,
        question: Question,
    },
    /// The supervisor answers the question of a machine that has this number.
    Answer {
        machine: u32,
        query: u64,
        order: Text,
    },
    /// A machine tells its downstream neighbour which board will come.
    Forecast {
        machine: u32,
    },
    /// A machine asks its upstream neighbour for the board with this top barcode.
    Query {
        machine: u32,
        barcode: Text,
    },
}

/// A line of a script of a line of several lanes.
#[derive(Drop)]
pub enum LaneLine {
    /// A line of this lane, 1 to 4; of lane 1 where it names none.
    On {
        lane: u32,
        line: ScriptLine,
    },
    /// The line has so many lanes, 1 to 4.
    Lanes {
        count: u32,
    },
    /// A board that a machine keeps on lane `from` goes to its lane `to`.
    Shift {
        machine: u32,
        from: u32,
        to: u32,
        id: BoardId,
    },
}

/// Why a line is refused. The reasons are tested in this order, but the last four, of which the
/// first that holds for the words from the left counts.
#[derive(Clone, Copy, Debug, PartialEq, Eq)]
pub enum LineWhy {
    /// It has more than 4,096 bytes.
    LongLine,
    /// It is the 1,000,001st line of its script.
    TooManyLines,
    /// A byte of it is neither a tab nor printable ASCII.
    NotText,
    /// Its first word is no form's.
    UnknownWord,
    /// It has too few or too many words.
    WrongCount,
    BadNumber,
    BadSide,
    BadId,
    BadWord,
}

impl LineWhy {
    fn text(self) -> &'static str
        ensures { result.now ≡ why_text self }
    {
        match self {
            LineWhy::LongLine => "long line",
            LineWhy::TooManyLines => "too many lines",
            LineWhy::NotText => "not text",
            LineWhy::UnknownWord => "unknown word",
            LineWhy::WrongCount => "wrong count",
            LineWhy::BadNumber => "bad number",
            LineWhy::BadSide => "bad side",
            LineWhy::BadId => "bad id",
            LineWhy::BadWord => "bad word",
        }
    }
}

impl fmt::Display for LineWhy {
    ghost use Rattle.std.specs.Prelude.{Some};
    ghost use Rattle.line_script.specs.Words.{why_text};

    ghost output = { λ why. Some (why_text why) };

    fn fmt<W: fmt::Write>(&self, f: &mut fmt::Formatter<W>) -> fmt::Result {
        f.write_str(self.text())
    }
}

/// Why a line could not be read.
#[derive(Clone, Copy, Debug, PartialEq, Eq)]
pub enum LineError {
    Refused(LineWhy),
    Memory,
}
