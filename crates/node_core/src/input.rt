use crate::passage::Passage;
use board_record::BoardId;
use hermes_vertical::Question;
use line_base::{Quality, Side, Text};
use smema_bridge::SegmentLine;

/// What is given to a machine in a step.
#[derive(Drop)]
pub enum Input<'a> {
    /// Nothing but the unread sensor events.
    Nothing,
    /// The connection to the upstream neighbour is made.
    Connect,
    /// The connection of the downstream neighbour is accepted.
    Accepted,
    /// The downstream neighbour connects a second time.
    Second,
    /// These bytes arrive at this side.
    Bytes(Side, &'a [u8]),
    /// The connection of this side is found closed.
    Notice(Side),
    /// The clock ticks.
    Tick,
    /// The machine shuts down.
    Shutdown,
    /// The drive of this side fails.
    Fault(Side),
    /// From now on the machine is willing to hand boards over at this side, or not.
    Will(Side, bool),
    /// This signal of the segment of a bridge has this level now.
    Level(SegmentLine, bool),
    /// A board is put in by hand, maybe with a barcode on its top side.
    Insert(Option<Text>),
    /// This board is taken out by hand.
    Remove(BoardId),
    /// Another board is put into the place of this one by hand.
    Replace(BoardId),
    /// This board is known to be good or failed.
    Mark(BoardId, Quality),
    /// The downstream neighbour is told what board comes next.
    Forecast,
    /// The upstream neighbour is asked for the board with this barcode on its top side.
    Query(Text),
    /// From now on the machine is supervised, or not.
    Supervise(bool),
    /// The supervisor is asked for a work order.
    Ask(Question),
    /// The supervisor answers the question of this number by this work order.
    Answer {
        query: u64,
        order: Text,
    },
    /// This board, a panel, has a circuit more at this place, maybe with a barcode. Whether it is
    /// good isn't known.
    Sub {
        id: BoardId,
        pos: u32,
        barcode: Option<Text>,
    },
    /// This board goes to another lane of the machine, 1 to 4. Only a shift gives it
    /// (`Node::give`): a machine of one lane refuses it.
    Gives {
        id: BoardId,
        to: u32,
    },
    /// The board of this record comes from another lane of the machine. Only a shift gives it
    /// (`Node::get`): a machine of one lane refuses it.
    Gets(Passage),
}

/// Why an input may not be given.
#[derive(Clone, Copy, Debug, PartialEq, Eq)]
pub enum No {
    /// The intake has an open handover.
    IntakeOpen,
    /// There is no place for one board more.
    Full,
    /// The machine has made all its ids.
    IdsUsedUp,
    /// The machine keeps no record of this board.
    NotKept,
    /// The board was offered, so its record may be known downstream.
    Offered,
    /// It is so already.
    Same,
    /// That side has a connection.
    Connected,
    /// The intake has a board between itself and its neighbour.
    IntakeUnsettled,
    /// That side, or each of the two, has no connection.
    NotConnected,
    /// No board is moving at that side.
    NoHandover,
    /// The machine is a bridge, so the levels of its segment say what it is willing to do.
    Bridge,
    /// The machine is no bridge, so it has no segment.
    NotABridge,
    /// The session of that side doesn't stand.
    NotStanding,
    /// The neighbour doesn't list the feature that takes such a message.
    NotSupported,
    /// The machine keeps no board.
    NothingKept,
    /// The machine is not supervised.
    NotSupervised,
    /// As many questions for work orders have no answer as may wait for one.
    QueriesFull,
    /// No question of this number was asked.
    UnknownQuery,
    /// The question of this number was answered before.
    Answered(u64),
    /// The board's record has no room for one circuit more.
    SubsFull,
    /// The machine has no such lane.
    NoLane,
    /// The board was the last one that was offered, so texts that are on their way may name it.
    WasOffered,
}
