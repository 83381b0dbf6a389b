ghost use Rattle.std.specs.Prelude.{◌≡◌, Bool, ℕ, Option};
ghost use Rattle.book_keeper.specs.Keeping.{HasKeepCause};
ghost use Rattle.node_commands.specs.Taking.{HasTakenCause, Mends, Takes};

use book_keeper::{Keeper, Kept2};

/// Whether this process has the book now.
#[derive(Clone, Copy, Debug, PartialEq, Eq)]
pub enum Taken {
    /// It has, for as long as the book is there.
    Done,
    /// Another process has it.
    Busy,
    /// It could not be opened, or made.
    Failed,
}

/// A book that one process at a time has.
pub trait Guarded: Keeper {
    /// Whether another process has it, where that is told.
    ghost busy: { Self → Option Bool };

    /// Takes the book for this process, before it is read. It leaves its bytes, and reads none.
    fn take(&mut self) -> Taken
        ensures takes { Takes (busy self.old) result }
        ensures stays { Self.contents self.new ≡ Self.contents self.old }
        ensures unread { Self.left self.new ≡ Self.left self.old }
        ensures cause { HasTakenCause (Self.faults self.old) (Self.faults self.new) result };
}

/// Cuts off what follows the whole entries of a book of which so many bytes were read. Where nothing
/// does, it isn't cut.
pub fn mend<B: Keeper>(book: &mut B, count: u64, whole: u64) -> Kept2
    ensures mends { Mends count whole (B.contents book.old) (B.contents book.new) result }
    ensures cause { HasKeepCause (B.faults book.old) (B.faults book.new) result }
{
    if whole < count {
        return book.cut(whole);
    }
    Kept2::Done
}
