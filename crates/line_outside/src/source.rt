ghost use Rattle.std.specs.Prelude.{◌<◌, ℕ, List, Option, length};
ghost use Rattle.line_outside.specs.Source.{Gives, HasPullCause};

/// What one pull of a source gave.
#[derive(Clone, Copy, Debug, PartialEq, Eq)]
pub enum Pull {
    /// So many bytes, at least one, stand at the front of the room.
    Bytes(usize),
    /// No bytes are left.
    End,
    /// The source failed. No byte was taken.
    Failed,
}

/// A source of bytes.
pub trait Source {
    /// The bytes that are left, where they are told.
    ghost left: { Self → Option (List ℕ) };

    /// A count of its faults. It never falls, and rises where a pull fails, up to 2^64 - 1.
    ghost faults: { Self → ℕ };

    /// Takes the next bytes, as many as it likes of those that fit the room.
    fn pull(&mut self, room: &mut [u8]) -> Pull
        requires { 0 < length room.old }
        ensures gives { Gives (left self.old) (left self.new) result room.new }
        ensures cause { HasPullCause (faults self.old) (faults self.new) result };
}
