ghost use Rattle.std.specs.Prelude.{◌≡◌, [], ◌∷◌, ◌++◌, IfOk, OnErr, OnOk};

use board_record::BoardId;
use hermes_horizontal::Message;
use hermes_vertical::VerticalMessage;
use line_base::{Memory, Quality, SensorEvent, Side, Text};
use smema_bridge::SegmentLine;
use std::alloc::Global;
use std::marker::Model;

/// One thing that a machine does in a step.
#[derive(Debug, Drop)]
pub enum Act {
    /// It reads a sensor event of this side.
    Reads(Side, SensorEvent),
    /// It takes a message.
    Hears(Side, Message),
    /// What came on this side is refused with this text, or has no row in the tables.
    Breaches(Side, Text),
    /// It sends a message.
    Sends(Side, Message),
    /// It closes the connection of this side.
    Closes(Side),
    /// It notices that the connection of this side is closed.
    Notices(Side),
    /// It connects to its upstream neighbour.
    Connects,
    /// A handover goes on.
    Deed(Deed),
    /// It switches the drive of this side on or off.
    Drive(Side, bool),
    /// A bridge switches one of its own signals on or off.
    Signals(Signal, bool),
    /// A kept record has this quality now.
    Marks(BoardId, Quality),
    /// A board was put in by hand.
    Inserts(BoardId),
    /// A board was taken out by hand.
    Removes(BoardId),
    /// A board, the first, was replaced by hand by another, the second.
    Replaces(BoardId, BoardId),
    /// A supervisor, if there is one, is told of a board or asked for a work order.
    Tells(ToSupervisor),
    /// The question of this number is answered by this work order.
    Answered(u64, Text),
    /// It was told otherwise.
    Sets(Setting),
    /// A kept record has a circuit more, at this place of the panel.
    Subs { id: BoardId, pos: u32 },
    /// A board goes to another lane of the machine.
    Gives { id: BoardId, to: u32 },
    /// A board comes from another lane of the machine.
    Gets { id: BoardId },
}

/// What a supervisor is told, or asked. It lies apart, so that an act is small: few acts tell a
/// supervisor, and every act is moved.
///
/// It is seen as its message.
#[derive(Debug, Drop)]
pub struct ToSupervisor {
    message: Box<VerticalMessage>,
}

impl Model for ToSupervisor {
    ghost use Rattle.hermes_vertical.specs.declared.message.VerticalMessage.{VerticalMessage};

    ghost Value = { VerticalMessage };

    ghost view = { λ told. told.message.value };
}

impl ToSupervisor {
    /// Puts aside what a supervisor is told. `Memory` where there is no room for it.
    pub fn new(alloc: Global, message: VerticalMessage) -> Result<ToSupervisor, Memory>
        ensures { IfOk result (λ told. told ≡ message) }
    {
        match Box::new(alloc, message) {
            Ok(message) => Ok(ToSupervisor { message }),
            Err(_) => Err(Memory),
        }
    }

    /// Its message.
    pub fn message(&self) -> &VerticalMessage
        ensures { result.now ≡ self.now }
    {
        &*self.message
    }
}

/// What becomes of a board at one of the sides.
#[derive(Clone, Copy, Debug, PartialEq, Eq)]
pub enum Deed {
    /// The handover of this board is open at the exit: the outlet holds its record.
    Opens(BoardId),
    /// The start of this board is refused.
    Refuses(BoardId),
    /// The board is the downstream machine's.
    Leaves(BoardId),
    /// The board is in the machine again, and its record is at the front.
    Returns(BoardId),
    /// The board was taken out by hand at the exit.
    Loses(BoardId),
    /// The transport of this board starts at the entry: the intake holds its record.
    Starts(BoardId),
    /// The board is the machine's, and its record is at the back.
    Settles(BoardId),
    /// The board didn't come, and its record is dropped.
    Drops(BoardId),
}

/// A signal of a bridge's own, by which its segment knows what its two handovers do.
#[derive(Clone, Copy, Debug, PartialEq, Eq)]
pub enum Signal {
    /// Board Available at the entry: a board is being taken.
    EntryAvailable,
    /// Failed Board Available at the entry: that board is a failed one.
    EntryFailed,
    /// Machine Ready at the exit: a board moves out.
    ExitReady,
}

/// What a machine can be told.
#[derive(Clone, Copy, Debug, PartialEq, Eq)]
pub enum Setting {
    /// Whether it is willing to hand boards over at this side.
    Will(Side, bool),
    /// The level of this signal of its segment.
    Level(SegmentLine, bool),
    /// Whether a supervisor is told of its boards, and may be asked for work orders.
    Supervise(bool),
}

/// The acts of a step, in their order. It is seen as their list.
#[derive(Debug, Drop)]
pub struct Outputs {
    acts: Vec<Act>,
}

impl Model for Outputs {
    ghost use Rattle.std.specs.Prelude.{List};
    ghost use Rattle.node_core.specs.declared.act.Act.{Act};

    ghost Value = { List Act };

    ghost view = { λ outputs. outputs.acts.items };
}

impl Outputs {
    /// No acts.
    pub fn new(alloc: Global) -> Outputs
        ensures { result ≡ [] }
    {
        Outputs {
            acts: Vec::new(alloc),
        }
    }

    /// Appends an act. `Memory` where there is none for it: the acts are as they were then.
    pub fn push(&mut self, act: Act) -> Result<(), Memory>
        ensures pushed { OnOk result (self.new ≡ self.old ++ act ∷ []) }
        ensures unchanged { OnErr result (self.new ≡ self.old) }
    {
        self.acts.push(act)?;
        Ok(())
    }

    /// The acts, in their order, for one who takes them over.
    pub fn into_list(self) -> Vec<Act>
        ensures { result.items ≡ self }
    {
        self.acts
    }

    /// The acts, in their order.
    pub fn list(&self) -> &[Act]
        ensures { result.now ≡ self.now }
    {
        self.acts.as_slice()
    }
}
