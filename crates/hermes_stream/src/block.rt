ghost use Rattle.std.specs.Prelude.{◌≡◌, ◌≤◌, ◌-◌, [], ◌++◌, IfOk, IfSome, if◌then◌else◌, nat_lt, drop, length, min, take};
ghost use Rattle.hermes_stream.specs.Frames.{NeedMore, TooLong, answer_of, first_end, left_of, most_bytes, without_blanks};
ghost use Rattle.hermes_stream.specs.Block.{message_in, step_of};
ghost use Rattle.circular_buffer.specs.Buffer.{buffer};

use crate::MOST_MESSAGE_BYTES;
use crate::scan::{blanks_before, find_end};
use circular_buffer::HeapCircularBuffer;
use line_base::Memory;
use std::alloc::Global;
use std::fmt;
use std::marker::Model;

/// The bytes that wait, in a ring, and the frame that was cut last, in a block beside it: a frame
/// is lent as one slice, and a ring's bytes may lie in two parts.
#[derive(Drop)]
pub struct Block {
    ring: HeapCircularBuffer<u8>,
    lent: Vec<u8>,
    frame: usize,
    searched: usize,
}

impl Model for Block {
    ghost use Rattle.hermes_stream.specs.Block.{Held};

    ghost Value = { Held };

    ghost use Rattle.hermes_stream.specs.Block.{held_in, IsInOrder};

    ghost view = { held_in };

    ghost invariant = { IsInOrder };
}

impl fmt::Debug for Block {
    fn fmt<W: fmt::Write>(&self, f: &mut fmt::Formatter<W>) -> fmt::Result {
        let waiting = self.waiting();
        write!(f, "Block {{ waiting: {waiting} }}")
    }
}

/// What stands at the front of the bytes that wait.
#[derive(Clone, Copy, Debug, PartialEq, Eq)]
pub enum Step {
    Frame,
    NeedMore,
    TooLong,
}

impl Block {
    /// A block in which nothing waits.
    pub fn new(alloc: Global) -> Result<Block, Memory>
        ensures { IfOk result (λ block. block ≡ record { frame = []; waiting = [] }) }
    {
        let Ok(ring) = HeapCircularBuffer::with_capacity(alloc, MOST_MESSAGE_BYTES) else {
            return Err(Memory);
        };
        match vec![in alloc; 0u8; MOST_MESSAGE_BYTES] {
            Ok(lent) => Ok(Block {
                ring,
                lent,
                frame: 0,
                searched: 0,
            }),
            Err(_) => Err(Memory),
        }
    }

    /// How many bytes wait.
    pub fn waiting(&self) -> usize
        ensures count { result ≡ length self.now.waiting }
        ensures bounded { result ≤ most_bytes }
    {
        self.ring.len()
    }

    /// Adds the first bytes of a piece behind the bytes that wait, as many as there is room for,
    /// and answers how many these are.
    pub fn fill(&mut self, piece: &[u8]) -> usize
        ensures count { result ≡ min (length piece.now) (most_bytes - length self.old.waiting) }
        ensures held { self.new
            ≡ record { frame = []; waiting = self.old.waiting ++ take result piece.now } }
        ensures bounded { length self.new.waiting ≤ most_bytes }
    {
        let count = self.ring.fill_from_slice(piece);
        self.frame = 0;
        count
    }

    /// Lets go of all bytes.
    pub fn clear(&mut self)
        ensures { self.new ≡ record { frame = []; waiting = [] } }
    {
        self.frame = 0;
        self.searched = 0;
        self.ring.clear();
    }

    /// Drops the blanks at the front, and cuts off the frame that stands there, if one does.
    pub fn cut(&mut self) -> Step
        ensures step { result ≡ step_of (answer_of self.old.waiting) }
        ensures bounded { length self.old.waiting ≤ most_bytes }
        ensures held { self.new
            ≡ record {
              frame = message_in (answer_of self.old.waiting);
              waiting = left_of self.old.waiting;
            } }
    {
        self.drop_blanks();
        if let Some(count) = self.first_end() {
            self.move_out(count);
            return Step::Frame;
        }
        self.pass_all();
        step_without_end(self.waiting())
    }

    /// The frame that was cut last.
    pub fn frame(&self) -> &[u8]
        ensures { result.now ≡ self.now.frame }
    {
        &self.lent[..self.frame]
    }

    /// Drops the blanks at the front.
    fn drop_blanks(&mut self)
        ensures held { self.new ≡ record { frame = []; waiting = without_blanks self.old.waiting } }
        ensures bounded { length self.old.waiting ≤ most_bytes }
    {
        self.frame = 0;
        let blanks = blanks_in(&self.ring);
        self.searched = self.searched.saturating_sub(blanks);
        self.ring.truncate_front(self.ring.len() - blanks);
    }

    /// How many bytes there are through the first end of a message.
    fn first_end(&self) -> Option<usize>
        ensures answer { result ≡ first_end self.now.waiting }
        ensures within { IfSome result (λ count. count ≤ length self.now.waiting) }
    {
        let (first, second) = self.ring.as_slices();
        find_end(first, second, self.searched)
    }

    /// Notes that no end is among the bytes that wait.
    fn pass_all(&mut self)
        requires { first_end self.old.waiting ≡ None }
        ensures { self.new ≡ record { frame = []; waiting = self.old.waiting } }
    {
        self.frame = 0;
        self.searched = self.ring.len();
    }

    /// Moves so many bytes from the front to where they are lent.
    fn move_out(&mut self, count: usize)
        requires { count ≤ length self.old.waiting }
        ensures { self.new
            ≡ record { frame = take count self.old.waiting; waiting = drop count self.old.waiting } }
    {
        move_first(&mut self.ring, &mut self.lent, count);
        self.frame = count;
        self.searched = 0;
    }
}

/// What stands at the front of so many bytes without an end.
fn step_without_end(waiting: usize) -> Step
    ensures { result ≡ step_of (if nat_lt waiting most_bytes then NeedMore else TooLong) }
{
    if waiting < MOST_MESSAGE_BYTES {
        Step::NeedMore
    } else {
        Step::TooLong
    }
}

/// How many blanks stand at the front of a ring.
fn blanks_in(ring: &HeapCircularBuffer<u8>) -> usize
    ensures within { result ≤ length ring.now.items }
    ensures dropped { drop result ring.now.items ≡ without_blanks ring.now.items }
{
    let (first, second) = ring.as_slices();
    blanks_before(first, second)
}

/// Moves the first bytes of a ring to the front of a block.
fn move_first(ring: &mut HeapCircularBuffer<u8>, block: &mut Vec<u8>, count: usize)
    requires in_ring { count ≤ length ring.old.items }
    requires in_block { count ≤ length block.old.items }
    ensures ring { ring.new ≡ buffer (drop count ring.old.items) ring.old.capacity }
    ensures moved { take count block.new.items ≡ take count ring.old.items }
    ensures size { length block.new.items ≡ length block.old.items }
{
    let (front, _) = block.split_at_mut(count);
    ring.read_into(front);
}
