ghost use Rattle.std.specs.Prelude.{◌≡◌, IfOk, [], ◌∷◌, ◌++◌, OnOk, OnErr};

use board_record::{BoardId, Sensed};
use hermes_vertical::Question;
use line_base::{Memory, Moment, Quality, Side, Text};
use smema_bridge::SegmentLine;
use std::alloc::Global;
use std::marker::Model;

/// What was given to a machine in one step: the sensor events that it read, its input, and when.
#[derive(Drop)]
pub struct Entry {
    pub sensed: Events,
    pub input: OwnInput,
    pub moment: Moment,
}

/// What is given to a machine in a step, as `Input` of `node_core`, with its bytes kept.
#[derive(Drop)]
pub enum OwnInput {
    /// Nothing but the unread sensor events.
    Nothing,
    /// The connection to the upstream neighbour is made.
    Connect,
    /// The connection of the downstream neighbour is accepted.
    Accepted,
    /// The downstream neighbour connects a second time.
    Second,
    /// These bytes arrive at this side.
    Bytes(Side, OwnBytes),
    /// The connection of this side is found closed.
    Notice(Side),
    /// The clock ticks.
    Tick,
    /// The machine shuts down.
    Shutdown,
    /// The drive of this side fails.
    Fault(Side),
    /// From now on the machine is willing to hand boards over at this side, or not.
    Will(Side, bool),
    /// This signal of the segment of a bridge has this level now.
    Level(SegmentLine, bool),
    /// A board is put in by hand, maybe with a barcode on its top side.
    Insert(Option<Text>),
    /// This board is taken out by hand.
    Remove(BoardId),
    /// Another board is put into the place of this one by hand.
    Replace(BoardId),
    /// This board is known to be good or failed.
    Mark(BoardId, Quality),
    /// The downstream neighbour is told what board comes next.
    Forecast,
    /// The upstream neighbour is asked for the board with this barcode on its top side.
    Query(Text),
    /// From now on the machine is supervised, or not.
    Supervise(bool),
    /// The supervisor is asked for a work order.
    Ask(Question),
    /// The supervisor answers the question of this number by this work order.
    Answer {
        query: u64,
        order: Text,
    },
    /// This board, a panel, has a circuit more at this place, maybe with a barcode.
    Sub {
        id: BoardId,
        pos: u32,
        barcode: Option<Text>,
    },
}

/// Sensor events in the order in which they were seen.
#[derive(Debug, Drop)]
pub struct Events {
    events: Vec<Sensed>,
}

impl Model for Events {
    ghost use Rattle.std.specs.Prelude.{List};
    ghost use Rattle.board_record.specs.declared.sensed.Sensed.{Sensed};

    ghost Value = { List Sensed };

    ghost view = { λ events. events.events.items };
}

impl Events {
    /// No events.
    pub fn new(alloc: Global) -> Events
        ensures { result ≡ [] }
    {
        Events {
            events: Vec::new(alloc),
        }
    }

    /// Adds an event at the end, or leaves the list as it was where memory is wanting.
    pub fn push(&mut self, sensed: Sensed) -> Result<(), Memory>
        ensures pushed { OnOk result (self.new ≡ self.old ++ sensed ∷ []) }
        ensures unchanged { OnErr result (self.new ≡ self.old) }
    {
        match self.events.push(sensed) {
            Ok(()) => Ok(()),
            Err(_) => Err(Memory),
        }
    }

    /// The events in order.
    pub fn list(&self) -> &[Sensed]
        ensures { result.now ≡ self.now }
    {
        self.events.as_slice()
    }
}

/// Bytes that arrived, kept.
#[derive(Debug, Drop)]
pub struct OwnBytes {
    bytes: Vec<u8>,
}

impl Model for OwnBytes {
    ghost use Rattle.std.specs.Prelude.{List, ℕ};

    ghost Value = { List ℕ };

    ghost view = { λ bytes. bytes.bytes.items };
}

impl OwnBytes {
    /// These bytes.
    pub fn of(alloc: Global, bytes: &[u8]) -> Result<OwnBytes, Memory>
        ensures { IfOk result (λ own. own ≡ bytes.now) }
    {
        match Vec::from_slice(alloc, bytes) {
            Ok(bytes) => Ok(OwnBytes { bytes }),
            Err(_) => Err(Memory),
        }
    }

    /// The bytes.
    pub fn bytes(&self) -> &[u8]
        ensures { result.now ≡ self.now }
    {
        self.bytes.as_slice()
    }
}
