ghost use Rattle.std.specs.Prelude.{◌≡◌, ◌<◌, ℕ, List, Option, length};
ghost use Rattle.line_outside.specs.Source.{Gives, HasPullCause};
ghost use Rattle.book_keeper.specs.Keeping.{Cuts, HasKeepCause, Keeps};

use line_outside::Pull;

/// Whether the book did what was asked of it.
#[derive(Clone, Copy, Debug, PartialEq, Eq)]
pub enum Kept2 {
    Done,
    /// It did nothing.
    Failed,
}

/// A book that keeps the entries of a machine's steps.
pub trait Keeper {
    /// The bytes of the book, where they are told.
    ghost contents: { Self → Option (List ℕ) };

    /// Those that weren't pulled, where they are told. At first they are all.
    ghost left: { Self → Option (List ℕ) };

    /// A count of its faults. It never falls, and rises where a call fails, up to 2^64 - 1.
    ghost faults: { Self → ℕ };

    /// Reads the book from its start: the next bytes, as many as it likes of those that fit the
    /// room.
    fn pull(&mut self, room: &mut [u8]) -> Pull
        requires { 0 < length room.old }
        ensures gives { Gives (left self.old) (left self.new) result room.new }
        ensures stays { contents self.new ≡ contents self.old }
        ensures cause { HasPullCause (faults self.old) (faults self.new) result };

    /// Leaves the first bytes of the book, so many; or, where it fails, the book as it is.
    fn cut(&mut self, length: u64) -> Kept2
        ensures cuts { Cuts (contents self.old) (contents self.new) result length }
        ensures cause { HasKeepCause (faults self.old) (faults self.new) result };

    /// Appends an entry; where it fails, the book is as it was.
    fn keep(&mut self, entry: &[u8]) -> Kept2
        ensures keeps { Keeps (contents self.old) (contents self.new) result entry.now }
        ensures cause { HasKeepCause (faults self.old) (faults self.new) result };
}
