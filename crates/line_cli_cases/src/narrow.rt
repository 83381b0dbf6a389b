ghost use Rattle.std.specs.Prelude.{◌≤◌, ◌<◌, None};

use line_outside::{Push, Sink};
use std::alloc::Global;

/// A sink that takes a few bytes at each call, of which one may fail, and has no end of room. It
/// tells nothing to contracts. Its faults are the calls that failed.
#[derive(Drop)]
pub struct Narrow {
    bytes: Vec<u8>,
    /// How many bytes a call takes at most.
    taken: usize,
    /// The number of the call that fails, from 1; none where it is 0.
    failing: u64,
    calls: u64,
    faults: u64,
}

impl Narrow {
    /// An empty sink that takes so many bytes at each call, and of which the call of this number
    /// fails.
    pub fn new(alloc: Global, taken: usize, failing: u64) -> Narrow {
        Narrow {
            bytes: Vec::new(alloc),
            taken,
            failing,
            calls: 0,
            faults: 0,
        }
    }

    /// What it has taken.
    pub fn bytes(&self) -> &[u8] {
        self.bytes.as_slice()
    }
}

impl Sink for Narrow {
    ghost contents = { λ _. None };

    ghost faults = { λ sink. sink.faults };

    fn push(&mut self, piece: &[u8]) -> Push {
        self.calls = self.calls.saturating_add(1);
        let count = count_taken(piece.len(), self.taken);
        if self.calls == self.failing || self.bytes.extend_from_slice(&piece[..count]).is_err() {
            self.faults = self.faults.saturating_add(1);
            return Push::Failed;
        }
        Push::Took(count)
    }
}

/// How many of so many bytes a call takes that takes at most this many; all where it would take
/// none.
fn count_taken(bytes: usize, most: usize) -> usize
    requires { 0 < bytes }
    ensures some { 1 ≤ result }
    ensures within { result ≤ bytes }
{
    if most == 0 || bytes <= most {
        return bytes;
    }
    most
}
