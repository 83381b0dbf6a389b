ghost use Rattle.std.specs.Prelude.{◌≡◌, ◌∷◌, [], ◌++◌, List, true, false};
ghost use Rattle.smema_signals.specs.Edge.{edges, following};
ghost use Rattle.smema_signals.specs.Taker.{TakerCall, free, full, taker_levels, with_ready};

use crate::levels::{Edges, Levels, edge_of};
use std::marker::Model;

/// The end that takes boards. Its one signal is Machine Ready.
///
/// It is seen as its levels, of which the second is off.
#[derive(Clone, Copy, Debug, PartialEq, Eq)]
pub struct Taker {
    ready: bool,
}

impl Model for Taker {
    ghost use Rattle.std.specs.Prelude.{Bool};

    ghost Value = { Bool };

    ghost view = { λ taker. taker.ready };

    ghost inverse = { λ ready. record { ready = ready } };
}

impl Taker {
    /// An end with no place for a board: Machine Ready is off.
    pub fn new() -> Taker
        ensures off { result ≡ false }
        ensures calls { with_ready result ≡ taker_levels [] }
    {
        Taker { ready: false }
    }

    /// There is a free place: Machine Ready goes on. Answers the edges.
    pub fn free(&mut self) -> Edges
        ensures level { self.new ≡ true }
        ensures edges { result ≡ edges (with_ready self.old) (with_ready self.new) }
        ensures followed { following (with_ready self.old) result ≡ with_ready self.new }

        // the level is that of all calls so far
        ensures calls { (calls : List TakerCall) → with_ready self.old ≡ taker_levels calls
            → with_ready self.new ≡ taker_levels (calls ++ free ∷ []) }
    {
        self.change(true)
    }

    /// There is no free place: Machine Ready goes off. Answers the edges.
    pub fn full(&mut self) -> Edges
        ensures level { self.new ≡ false }
        ensures edges { result ≡ edges (with_ready self.old) (with_ready self.new) }
        ensures followed { following (with_ready self.old) result ≡ with_ready self.new }

        // the level is that of all calls so far
        ensures calls { (calls : List TakerCall) → with_ready self.old ≡ taker_levels calls
            → with_ready self.new ≡ taker_levels (calls ++ full ∷ []) }
    {
        self.change(false)
    }

    /// Its levels: first Machine Ready, second off.
    pub fn levels(&self) -> Levels
        ensures { result ≡ with_ready self.now }
    {
        Levels {
            first: self.ready,
            second: false,
        }
    }

    fn change(&mut self, ready: bool) -> Edges
        ensures level { self.new ≡ ready }
        ensures edges { result ≡ edges (with_ready self.old) (with_ready self.new) }
    {
        let first = edge_of(self.ready, ready);
        self.ready = ready;
        Edges {
            first,
            second: None,
        }
    }
}
