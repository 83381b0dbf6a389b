ghost use Rattle.std.specs.Prelude.{◌≡◌, ◌∷◌, [], ◌++◌, List};
ghost use Rattle.smema_bridge.specs.Segment.{failed_board, with_level};
ghost use Rattle.smema_signals.specs.Edge.{edge};
ghost use Rattle.smema_bridge.specs.Signals.{bridge_edges, following, is_taking, is_taking_failed, signals_of, with_entry, with_exit};
ghost use Rattle.smema_bridge.specs.Calls.{BridgeCall, bridge_after, bridge_after_call, bridge_off, level, settle};

use crate::edges::BridgeEdges;
use crate::line::SegmentLine;
use board_record::BoardId;
use line_base::Quality;
use smema_signals::{Edges, Giver, Taker};
use std::marker::Model;

/// The signals of a bridge: the levels of its segment, and its own.
///
/// At its entry a bridge gives boards to the segment, at its exit it takes them from there. It is
/// seen as the segment's three levels and its own three.
#[derive(Clone, Copy, Debug, PartialEq, Eq)]
pub struct Bridge {
    ready: bool,
    available: bool,
    failed: bool,
    entry: Giver,
    exit: Taker,
}

impl Model for Bridge {
    ghost use Rattle.smema_bridge.specs.Levels.{BridgeLevels};

    ghost Value = { BridgeLevels };

    ghost view = { λ bridge.
        record {
          segment = record {
            ready = bridge.ready;
            available = bridge.available;
            failed = bridge.failed;
          };
          own = record {
            available = bridge.entry.first;
            failed =
                bridge.entry.second;
            ready = bridge.exit;
          };
        } };

    ghost inverse = { λ levels. record { ready = levels.segment.ready; available = levels.segment.available; failed = levels.segment.failed; entry = record { first = levels.own.available; second = levels.own.failed }; exit = levels.own.ready } };
}

impl Bridge {
    /// A bridge with all levels off, its segment's and its own.
    pub fn new() -> Bridge
        ensures off { result ≡ bridge_off }
        ensures calls { result ≡ bridge_after [] }
    {
        Bridge {
            ready: false,
            available: false,
            failed: false,
            entry: Giver::new(),
            exit: Taker::new(),
        }
    }

    /// Sets the level of a signal of the segment.
    ///
    /// `front` is the front board of the bridge, `touched` whether it may be known downstream.
    /// Answers the front's id where this makes a failed board available: Board Available goes from
    /// off to on, Failed Board Available is on, and the front isn't touched. The machine then
    /// marks that board as failed.
    pub fn level(
        &mut self,
        line: SegmentLine,
        on: bool,
        front: Option<BoardId>,
        touched: bool,
    ) -> Option<BoardId>
        ensures segment { self.new.segment ≡ with_level line on self.old.segment }
        ensures own { self.new.own ≡ self.old.own }
        ensures failed { result ≡ failed_board line on self.old.segment front touched }

        // the levels are those of all calls so far
        ensures calls { (calls : List BridgeCall) → self.old ≡ bridge_after calls
            → self.new ≡ bridge_after (calls ++ level line on ∷ []) }
    {
        let was_available = self.available;
        self.set_level(line, on);
        let rises = self.available && !was_available;
        if rises && self.failed && !touched {
            front
        } else {
            None
        }
    }

    /// Whether the bridge is willing to take a board at its entry: the segment is ready.
    pub fn wants_in(&self) -> bool
        ensures { result ≡ self.now.segment.ready }
    {
        self.ready
    }

    /// Whether the bridge is willing to give a board at its exit: the segment has one available.
    pub fn wants_out(&self) -> bool
        ensures { result ≡ self.now.segment.available }
    {
        self.available
    }

    /// Whether the segment says that the board which it has available is a failed one.
    pub fn failed(&self) -> bool
        ensures { result ≡ self.now.segment.failed }
    {
        self.failed
    }

    /// Sets the bridge's own signals by what its handovers do, and answers their edges.
    ///
    /// `taking` is the quality of the board that the intake is taking, if it takes one; `moving`
    /// is whether the outlet moves one. At the entry Board Available is on exactly while a board
    /// is being taken, and Failed Board Available exactly while it is a failed one; at the exit
    /// Machine Ready is on exactly while a board moves.
    pub fn settle(&mut self, taking: Option<Quality>, moving: bool) -> BridgeEdges
        ensures own { self.new.own ≡ signals_of taking moving }
        ensures segment { self.new.segment ≡ self.old.segment }
        ensures edges { result ≡ bridge_edges self.old.own self.new.own }
        ensures followed { following self.old.own result ≡ self.new.own }

        // the levels are those of all calls so far
        ensures calls { (calls : List BridgeCall) → self.old ≡ bridge_after calls
            → self.new ≡ bridge_after (calls ++ settle taking moving ∷ []) }
    {
        let entry = self.settle_entry(taking);
        let exit = self.settle_exit(moving);
        BridgeEdges {
            available: entry.first,
            failed: entry.second,
            ready: exit.first,
        }
    }

    fn set_level(&mut self, line: SegmentLine, on: bool)
        ensures { self.new ≡ bridge_after_call self.old (level line on) }
    {
        match line {
            SegmentLine::Ready => self.ready = on,
            SegmentLine::Available => self.available = on,
            SegmentLine::Failed => self.failed = on,
        }
    }

    fn settle_entry(&mut self, taking: Option<Quality>) -> Edges
        ensures after { self.new ≡ with_entry (is_taking taking) (is_taking_failed taking) self.old }
        ensures edges { result ≡ record {
          first = edge self.old.own.available self.new.own.available;
          second = edge self.old.own.failed self.new.own.failed;
        } }
    {
        match taking {
            Some(quality) => self.entry.offer(quality == Quality::Failed),
            None => self.entry.left(),
        }
    }

    fn settle_exit(&mut self, moving: bool) -> Edges
        ensures after { self.new ≡ with_exit moving self.old }
        ensures edges { result ≡ record {
          first = edge self.old.own.ready self.new.own.ready;
          second = None;
        } }
    {
        if moving {
            self.exit.free()
        } else {
            self.exit.full()
        }
    }
}
