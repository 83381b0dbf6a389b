ghost use Rattle.std.specs.Prelude.{◌≡◌};
ghost use Rattle.machine_port.specs.Numbers.{id_bytes};
ghost use Rattle.machine_port.specs.Acts.{act_seen, at_side, deed_seen, numbered, of_board, of_message, told_seen};

use crate::numbers::{
    event_number, flag, id_bytes, message_number, quality_number, side_number, signal_number,
};
use board_record::BoardId;
use hermes_horizontal::Message;
use hermes_vertical::Vertical;
use line_base::Side;
use node_core::{Act, Deed};

/// How many bytes an act has.
pub const ACT_BYTES: u32 = 56;

/// One act of a step. What its kind doesn't name is 0.
#[repr(C)]
#[derive(Clone, Copy)]
pub struct HermesAct {
    /// How many bytes this has, 56.
    pub size: u32,
    /// The number of its kind.
    pub kind: u32,
    /// The number of a side, or the place of a signal of a bridge's own in a view.
    pub side: u32,
    /// What was seen, a message, a level or a quality, by its number, a place of a panel or a lane.
    pub what: u32,
    /// The number of a question.
    pub query: u64,
    /// A board's id, the most significant byte first.
    pub id: [u8; 16],
    /// That of the board that another was replaced by.
    pub other: [u8; 16],
}

fn numbered(kind: u32, side: u32, what: u32) -> HermesAct
    ensures { result ≡ numbered kind side what }
{
    HermesAct {
        size: ACT_BYTES,
        kind,
        side,
        what,
        query: 0,
        id: id_bytes(BoardId::of(0)),
        other: id_bytes(BoardId::of(0)),
    }
}

fn at_side(kind: u32, side: Side, what: u32) -> HermesAct
    ensures { result ≡ at_side kind side what }
{
    numbered(kind, side_number(side), what)
}

fn of_board(kind: u32, side: u32, what: u32, id: BoardId) -> HermesAct
    ensures { result ≡ of_board kind side what id }
{
    HermesAct {
        id: id_bytes(id),
        ..numbered(kind, side, what)
    }
}

fn of_message(kind: u32, side: Side, message: &Message) -> HermesAct
    ensures { result ≡ of_message kind side message.now }
{
    at_side(kind, side, message_number(message.body.what().kind()))
}

fn with_query(query: u64, act: HermesAct) -> HermesAct
    ensures { result ≡ record act { query = query } }
{
    HermesAct { query, ..act }
}

fn with_other(other: BoardId, act: HermesAct) -> HermesAct
    ensures { result ≡ record act { other = id_bytes other } }
{
    HermesAct {
        other: id_bytes(other),
        ..act
    }
}

fn deed_seen(deed: Deed) -> HermesAct
    ensures { result ≡ deed_seen deed }
{
    match deed {
        Deed::Opens(id) => of_board(7, 1, 0, id),
        Deed::Refuses(id) => of_board(8, 1, 0, id),
        Deed::Leaves(id) => of_board(9, 1, 0, id),
        Deed::Returns(id) => of_board(10, 1, 0, id),
        Deed::Loses(id) => of_board(11, 1, 0, id),
        Deed::Starts(id) => of_board(12, 0, 0, id),
        Deed::Settles(id) => of_board(13, 0, 0, id),
        Deed::Drops(id) => of_board(14, 0, 0, id),
    }
}

/// What a supervisor is told of a board, or asked.
fn told_seen(body: &Vertical) -> HermesAct
    ensures { result ≡ told_seen body.now }
{
    match body {
        Vertical::BoardArrived(passage) => of_board(21, 0, 16, passage.id),
        Vertical::BoardDeparted(passage) => of_board(21, 0, 17, passage.id),
        Vertical::QueryWorkOrderInfo { query, .. } => with_query(*query, numbered(21, 0, 18)),
        _ => numbered(21, 0, 31),
    }
}

/// How an act is seen.
pub fn act_seen(act: &Act) -> HermesAct
    ensures { result ≡ act_seen act.now }
{
    match act {
        Act::Reads(side, event) => at_side(0, *side, event_number(*event)),
        Act::Hears(side, message) => of_message(1, *side, message),
        Act::Breaches(side, _) => at_side(2, *side, 0),
        Act::Sends(side, message) => of_message(3, *side, message),
        Act::Closes(side) => at_side(4, *side, 0),
        Act::Notices(side) => at_side(5, *side, 0),
        Act::Connects => numbered(6, 0, 0),
        Act::Deed(deed) => deed_seen(*deed),
        Act::Drive(side, on) => at_side(15, *side, flag(*on)),
        Act::Signals(signal, on) => numbered(16, signal_number(*signal), flag(*on)),
        Act::Marks(id, quality) => of_board(17, 0, quality_number(*quality), *id),
        Act::Inserts(id) => of_board(18, 0, 0, *id),
        Act::Removes(id) => of_board(19, 0, 0, *id),
        Act::Replaces(old, new) => with_other(*new, of_board(20, 0, 0, *old)),
        Act::Tells(told) => told_seen(&told.message().body),
        Act::Answered(query, _) => with_query(*query, numbered(22, 0, 0)),
        Act::Sets(_) => numbered(23, 0, 0),
        Act::Subs { id, pos } => of_board(24, 0, *pos, *id),
        Act::Gives { id, to } => of_board(25, 0, *to, *id),
        Act::Gets { id } => of_board(26, 0, 0, *id),
    }
}
