ghost use Rattle.std.specs.Prelude.{◌≡◌, ◌≤◌, length, take};
ghost use Rattle.line_status.specs.Pieces.{PushesFull};

use line_outside::{Pushed, Sink, push_all};

/// How many bytes are pulled at a time, and from how many on those that wait are pushed.
pub const PIECE_BYTES: usize = 65_536;

/// The first bytes of a room.
pub fn front(room: &[u8], count: usize) -> &[u8]
    requires { count ≤ length room.now }
    ensures { result.now ≡ take count room.now }
{
    &room[..count]
}

/// Pushes what waits to be written, if there is a big piece of it.
pub fn push_full<K: Sink>(text: &mut Vec<u8>, report: &mut K) -> Pushed
    ensures { PushesFull result (K.contents report.old) (K.contents report.new)
        (K.faults report.old) (K.faults report.new) text.old.items text.new.items }
{
    if text.len() < PIECE_BYTES {
        return Pushed::Whole;
    }
    let pushed = push_all(report, text.as_slice());
    text.clear();
    pushed
}
