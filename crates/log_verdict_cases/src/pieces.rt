ghost use Rattle.std.specs.Prelude.{None};

use line_outside::{Pull, Source};

/// A source that gives its bytes in pieces of one size, and tells nothing of them.
#[derive(Drop)]
pub struct Pieces<'a> {
    pub rest: &'a [u8],
    pub size: usize,
}

impl<'a> Source for Pieces<'a> {
    ghost left = { λ _. None };

    ghost faults = { λ _. 0 };

    fn pull(&mut self, room: &mut [u8]) -> Pull {
        let count = self.size.min(self.rest.len()).min(room.len());
        if count == 0 {
            return Pull::End;
        }
        let (piece, rest) = self.rest.split_at(count);
        room[..count].copy_from_slice(piece);
        self.rest = rest;
        Pull::Bytes(count)
    }
}
