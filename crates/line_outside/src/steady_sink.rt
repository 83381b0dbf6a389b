ghost use Rattle.std.specs.Prelude.{◌≡◌, ◌+◌, ◌-◌, ◌<◌, ◌≤◌, ℕ, [], None, Option, List, Some, IfOk, length, option_map, vec_len, vec_capacity};
ghost use Rattle.line_outside.specs.Sink.{Takes, HasPushCause};
ghost use Rattle.line_outside.specs.Sheet.{Page, told, grown};

use crate::sink::{Push, Sink};
use line_base::Memory;
use std::alloc::Global;
use std::marker::Model;

/// A sink in memory that never fails.
///
/// Its room is taken when it is made. A piece that doesn't fit what is left of the room is
/// dropped, and from then on the sink doesn't tell its contents. It is seen as what it tells, with
/// the room that is left.
#[derive(Debug, Drop)]
pub struct SteadySink {
    bytes: Vec<u8>,
    room: usize,
    dropped: bool,
}

impl Model for SteadySink {
    ghost Value = { Page };

    ghost view = { λ sink. record { contents = told sink.dropped sink.bytes.items; room = sink.room } };

    ghost invariant = { λ sink. vec_len sink.bytes + sink.room ≤ vec_capacity sink.bytes };
}

impl SteadySink {
    /// An empty sink with room for so many bytes.
    pub fn new(alloc: Global, room: usize) -> Result<SteadySink, Memory>
        ensures { IfOk result (λ sink. sink ≡ record { contents = Some []; room = room }) }
    {
        match Vec::with_capacity(alloc, room) {
            Ok(bytes) => Ok(SteadySink {
                bytes,
                room,
                dropped: false,
            }),
            Err(_) => Err(Memory),
        }
    }

    /// What it has taken, where it still tells it.
    pub fn contents(&self) -> Option<&[u8]>
        ensures { option_map (λ bytes. bytes.now) result ≡ self.now.contents }
    {
        if self.dropped {
            return None;
        }
        Some(self.bytes.as_slice())
    }
}

impl Sink for SteadySink {
    ghost contents = { λ sink. sink.contents };

    ghost faults = { λ _. 0 };

    fn push(&mut self, piece: &[u8]) -> Push
        requires { 0 < length piece.now }
        ensures takes { Takes self.old.contents self.new.contents result piece.now }
        ensures cause { HasPushCause 0 0 result }
        // the whole piece
        ensures whole { result ≡ Push.Took (length piece.now) }
        ensures page { self.new ≡ grown self.old piece.now }
    {
        if self.dropped || self.room < piece.len() {
            self.dropped = true;
            return Push::Took(piece.len());
        }
        self.room -= piece.len();
        self.bytes.extend_from_slice(piece).unwrap();
        Push::Took(piece.len())
    }
}
