ghost use Rattle.std.specs.Prelude.{◌≡◌, ◌<◌, ◌≤◌, ◌≢◌, ℕ, List, [], Some, IfOk, drop, length, min, take, vec_len};
ghost use Rattle.line_outside.specs.Source.{Gives, HasPullCause};
ghost use Rattle.line_outside.specs.Tape.{pulled};
ghost use Rattle.line_outside.specs.declared.source.Pull.TheVariants.{Bytes, End, Failed};

use crate::source::{Pull, Source};
use line_base::Memory;
use std::alloc::Global;
use std::marker::Model;

/// A source of bytes in memory that never fails. It is seen as the bytes that are left.
#[derive(Debug, Drop)]
pub struct SteadySource {
    bytes: Vec<u8>,
    at: usize,
}

impl Model for SteadySource {
    ghost Value = { List ℕ };

    ghost view = { λ source. drop source.at source.bytes.items };

    ghost invariant = { λ source. source.at ≤ vec_len source.bytes };
}

impl SteadySource {
    /// A source of these bytes.
    pub fn new(alloc: Global, bytes: &[u8]) -> Result<SteadySource, Memory>
        ensures { IfOk result (λ source. source ≡ bytes.now) }
    {
        match Vec::from_slice(alloc, bytes) {
            Ok(bytes) => Ok(SteadySource { bytes, at: 0 }),
            Err(_) => Err(Memory),
        }
    }
}

impl Source for SteadySource {
    ghost left = { λ source. Some source };

    ghost faults = { λ _. 0 };

    fn pull(&mut self, room: &mut [u8]) -> Pull
        requires { 0 < length room.old }
        ensures gives { Gives (Some self.old) (Some self.new) result room.new }
        ensures cause { HasPullCause 0 0 result }
        // as much as fits, and the end exactly where nothing is left
        ensures answer { result ≡ pulled self.old (length room.old) }
    {
        if self.at == self.bytes.len() {
            return Pull::End;
        }
        let count = fill(room, &self.bytes[self.at..]);
        self.at += count;
        Pull::Bytes(count)
    }
}

/// Copies as many of the bytes to the front of the room as fit, and says how many.
pub(crate) fn fill(room: &mut [u8], bytes: &[u8]) -> usize
    ensures count { result ≡ min (length bytes.now) (length room.old) }
    ensures filled { take result room.new ≡ take result bytes.now }
{
    let count = bytes.len().min(room.len());
    room[..count].copy_from_slice(&bytes[..count]);
    count
}
