ghost use Rattle.std.specs.Prelude.{◌≡◌, ◌∷◌, [], ◌++◌, List};
ghost use Rattle.smema_signals.specs.Edge.{edges, following};
ghost use Rattle.smema_signals.specs.Giver.{GiverCall, giver_levels, left, no_board, offer, offering};

use crate::levels::{Edges, Levels, edge_of};
use std::marker::Model;

/// The end that gives boards. Its first signal is Board Available, its second Failed Board
/// Available: that the board which is available is a failed one.
///
/// It is seen as its levels.
#[derive(Clone, Copy, Debug, PartialEq, Eq)]
pub struct Giver {
    available: bool,
    failed: bool,
}

impl Model for Giver {
    ghost use Rattle.smema_signals.specs.declared.levels.Levels.{Levels as Level};

    ghost Value = { Level };

    ghost view = { λ giver. record { first = giver.available; second = giver.failed } };

    ghost inverse = { λ levels. record { available = levels.first; failed = levels.second } };
}

impl Giver {
    /// An end with no board to give: both signals are off.
    pub fn new() -> Giver
        ensures off { result ≡ no_board }
        ensures calls { result ≡ giver_levels [] }
    {
        Giver {
            available: false,
            failed: false,
        }
    }

    /// A board is there to be taken: Board Available goes on, and Failed Board Available on or off
    /// as the board is failed or not. Answers the edges.
    pub fn offer(&mut self, failed: bool) -> Edges
        ensures levels { self.new ≡ offering failed }
        ensures edges { result ≡ edges self.old self.new }
        ensures followed { following self.old result ≡ self.new }

        // the levels are those of all calls so far
        ensures calls { (calls : List GiverCall) → self.old ≡ giver_levels calls
            → self.new ≡ giver_levels (calls ++ offer failed ∷ []) }
    {
        self.change(true, failed)
    }

    /// The board has left: both signals go off. Answers the edges.
    pub fn left(&mut self) -> Edges
        ensures levels { self.new ≡ no_board }
        ensures edges { result ≡ edges self.old self.new }
        ensures followed { following self.old result ≡ self.new }

        // the levels are those of all calls so far
        ensures calls { (calls : List GiverCall) → self.old ≡ giver_levels calls
            → self.new ≡ giver_levels (calls ++ left ∷ []) }
    {
        self.change(false, false)
    }

    /// Its levels: first Board Available, second Failed Board Available.
    pub fn levels(&self) -> Levels
        ensures { result ≡ self.now }
    {
        Levels {
            first: self.available,
            second: self.failed,
        }
    }

    fn change(&mut self, available: bool, failed: bool) -> Edges
        ensures levels { self.new ≡ record { first = available; second = failed } }
        ensures edges { result ≡ edges self.old self.new }
    {
        let first = edge_of(self.available, available);
        let second = edge_of(self.failed, failed);
        self.available = available;
        self.failed = failed;
        Edges { first, second }
    }
}
