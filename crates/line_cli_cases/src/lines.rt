ghost use Rattle.std.specs.Prelude.{◌≤◌, None, length};

use line_outside::{Pull, Source};

/// A source that gives one line at each call, of which one may fail, and tells nothing of its
/// bytes. Its faults are the calls that failed.
#[derive(Drop)]
pub struct Lines<'a> {
    rest: &'a [u8],
    /// The number of the call that fails, from 1; none where it is 0.
    failing: u64,
    calls: u64,
    faults: u64,
}

impl<'a> Lines<'a> {
    /// A source of these bytes of which the call of this number fails.
    pub fn new(bytes: &'a [u8], failing: u64) -> Lines<'a> {
        Lines {
            rest: bytes,
            failing,
            calls: 0,
            faults: 0,
        }
    }
}

impl<'a> Source for Lines<'a> {
    ghost left = { λ _. None };

    ghost faults = { λ source. source.faults };

    fn pull(&mut self, room: &mut [u8]) -> Pull {
        self.calls = self.calls.saturating_add(1);
        if self.calls == self.failing {
            self.faults = self.faults.saturating_add(1);
            return Pull::Failed;
        }
        let count = line_length(self.rest).min(room.len());
        if count == 0 {
            return Pull::End;
        }
        let (piece, rest) = self.rest.split_at(count);
        room[..count].copy_from_slice(piece);
        self.rest = rest;
        Pull::Bytes(count)
    }
}

/// How many bytes the first line has, with its end.
fn line_length(bytes: &[u8]) -> usize
    ensures { result ≤ length bytes.now }
{
    match bytes.iter().position(|byte| *byte == b'\n') {
        Some(place) => place + 1,
        None => bytes.len(),
    }
}
