ghost use Rattle.std.specs.Prelude.{◌≡◌, ◌-◌, ◌≤◌, [], ◌++◌, IfOk, drop, length, min, take};
ghost use Rattle.std.specs.Borrow.{sem};
ghost use Rattle.hermes_stream.specs.Frames.{TooLong, answer_of, left_of, most_bytes};
ghost use Rattle.hermes_stream.specs.Cutter.{CutsExactly, Tells, answered};
ghost use Rattle.hermes_stream.specs.Rests.{RestsAsLeft};

use crate::block::{Block, Step};
use line_base::Memory;
use std::alloc::Global;
use std::marker::Model;

/// Cuts a stream of bytes into messages. It is seen as the bytes that wait in it: those that were
/// fed, less the frames that were given and the blanks that were dropped.
#[derive(Debug, Drop)]
pub struct Cutter {
    block: Block,
}

impl Model for Cutter {
    ghost use Rattle.std.specs.Prelude.{List, ℕ};

    ghost Value = { List ℕ };

    ghost view = { λ cutter. cutter.block.waiting };
}

/// What stood at the front of the bytes that waited.
#[derive(Clone, Copy, Debug, PartialEq, Eq)]
pub enum Cut<'a> {
    /// A message through its first `</Hermes>`, without the blanks before it. Its bytes wait no
    /// more.
    Frame(&'a [u8]),
    /// No end waits, and there is room for more bytes.
    NeedMore,
    /// As many bytes wait as a message may have, and no end is among them. This stays so for good.
    TooLong,
}

impl Cutter {
    /// A cutter in which nothing waits, with room for the bytes of one message.
    pub fn new(alloc: Global) -> Result<Cutter, Memory>
        ensures { IfOk result (λ cutter. cutter ≡ []) }
    {
        match Block::new(alloc) {
            Ok(block) => Ok(Cutter { block }),
            Err(Memory) => Err(Memory),
        }
    }

    /// Takes the first bytes of a piece, as many as there is room for, and answers how many these
    /// are. The room is 65,536 less the bytes that wait, so it takes nothing after `TooLong`.
    pub fn feed(&mut self, piece: &[u8]) -> usize
        ensures count { result ≡ min (length piece.now) (most_bytes - length self.old) }
        ensures waiting { self.new ≡ self.old ++ take result piece.now }
        ensures whole { self.new ++ drop result piece.now ≡ self.old ++ piece.now }
        ensures bounded { length self.new ≤ most_bytes }
        ensures too_long { answer_of self.old ≡ TooLong → result ≡ 0 }
    {
        self.block.fill(piece)
    }

    /// Drops the blanks that stand before a message, and answers what stands there then.
    #[inline(always)]
    pub fn next(&mut self) -> Cut<'_>
        ensures* rests { sem 𝓛 (RestsAsLeft self.entry) }
        ensures bounded { length self.old ≤ most_bytes }
        ensures answer { answered result ≡ answer_of self.old }
        ensures tells { Tells self.old (answered result) }
        ensures exact { CutsExactly }
    {
        match self.block.cut() {
            Step::Frame => Cut::Frame(self.block.frame()),
            Step::NeedMore => Cut::NeedMore,
            Step::TooLong => Cut::TooLong,
        }
    }

    /// Lets go of the bytes that wait, as where one stream ends and another begins.
    pub fn clear(&mut self)
        ensures { self.new ≡ [] }
    {
        self.block.clear();
    }

    /// How many bytes wait.
    pub fn waiting(&self) -> usize
        ensures count { result ≡ length self.now }
        ensures bounded { result ≤ most_bytes }
    {
        self.block.waiting()
    }
}
