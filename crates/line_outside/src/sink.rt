ghost use Rattle.std.specs.Prelude.{◌<◌, ℕ, List, Option, length};
ghost use Rattle.line_outside.specs.Sink.{Takes, HasPushCause};

/// What one push into a sink did.
#[derive(Clone, Copy, Debug, PartialEq, Eq)]
pub enum Push {
    /// So many bytes of the piece, at least one, were appended.
    Took(usize),
    /// The sink failed. Nothing was appended.
    Failed,
}

/// A sink of bytes.
pub trait Sink {
    /// The bytes that it has taken, where they are told. What is once untold stays untold.
    ghost contents: { Self → Option (List ℕ) };

    /// A count of its faults. It never falls, and rises where a push fails, up to 2^64 - 1.
    ghost faults: { Self → ℕ };

    /// Appends the first bytes of the piece, as many as it likes.
    fn push(&mut self, piece: &[u8]) -> Push
        requires { 0 < length piece.now }
        ensures takes { Takes (contents self.old) (contents self.new) result piece.now }
        ensures cause { HasPushCause (faults self.old) (faults self.new) result };
}
