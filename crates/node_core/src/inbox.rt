//! The bytes of a side that make no message yet.

ghost use Rattle.std.specs.Prelude.{◌≡◌, ◌≤◌, [], OnOk, length, true};
ghost use Rattle.hermes_stream.specs.Frames.{most_bytes};
ghost use Rattle.node_core.specs.Sides.{is_open};
ghost use Rattle.node_core.specs.Halves.{OffersFront};
ghost use Rattle.node_core.specs.Words.{HearsPiece};

use crate::act::Outputs;
use crate::desk::Desk;
use crate::lane::Body;
use crate::piece::hear_piece;
use hermes_stream::Cutter;
use line_base::{Memory, Side};
use std::alloc::Global;
use std::marker::Model;

/// The bytes of a side that make no message yet. The room for them, two times that of the longest
/// message, is taken when the side first connects and kept from then on: a lane on which nothing
/// ever connects takes none. It is seen as the bytes that wait.
#[derive(Drop)]
pub struct Inbox {
    cutter: Option<Cutter>,
}

impl Model for Inbox {
    ghost use Rattle.std.specs.Prelude.{List, ℕ, [], unwrap_or};

    ghost Value = { List ℕ };

    ghost view = { λ inbox. unwrap_or inbox.cutter [] };
}

impl Inbox {
    /// No bytes, and no room for any yet.
    pub fn new() -> Inbox
        ensures { result ≡ [] }
    {
        Inbox { cutter: None }
    }

    /// Begins without bytes, as a connection does.
    pub fn begin(&mut self, alloc: Global) -> Result<(), Memory>
        ensures { OnOk result (self.new ≡ []) }
    {
        match &mut self.cutter {
            Some(cutter) => cutter.clear(),
            None => self.cutter = Some(Cutter::new(alloc)?),
        }
        Ok(())
    }

    /// How many bytes wait.
    pub fn waiting(&self) -> usize
        ensures count { result ≡ length self.now }
        ensures bounded { result ≤ most_bytes }
    {
        match &self.cutter {
            Some(cutter) => cutter.waiting(),
            None => 0,
        }
    }

    /// The side hears a piece of bytes, until it closes.
    pub fn hear(
        &mut self,
        body: &mut Body,
        desk: &Desk,
        side: Side,
        piece: &[u8],
        to: &mut Outputs,
    ) -> Result<(), Memory>
        requires open { is_open side body.old ≡ true }
        requires offers { OffersFront body.old }
        ensures { OnOk result
            (HearsPiece desk.now side self.old piece.now self.new body.old body.new to.old to.new) }
    {
        match &mut self.cutter {
            Some(cutter) => hear_piece(body, cutter, desk, side, piece, to),
            None => {
                let mut cutter = Cutter::new(desk.alloc())?;
                hear_piece(body, &mut cutter, desk, side, piece, to)?;
                self.cutter = Some(cutter);
                Ok(())
            }
        }
    }
}
