//! What holds of a bridge's signals whatever is called. Each law is a contract over the
//! definitions that the calls of `Bridge` meet.

ghost use Rattle.std.specs.Prelude.{◌≡◌, List, Bool};
ghost use Rattle.smema_bridge.specs.declared.line.SegmentLine.{SegmentLine as Line};
ghost use Rattle.smema_bridge.specs.Levels.{BridgeLevels, OwnLevels};
ghost use Rattle.smema_bridge.specs.Segment.{level_of};
ghost use Rattle.smema_bridge.specs.Signals.{bridge_edges, following};
ghost use Rattle.smema_bridge.specs.Calls.{BridgeCall, bridge_after_from, last_level, last_told};

/// A signal of the segment has the level to which it was set last, and the bridge's own signals
/// say what the handovers did when that was told last: neither knows of the other.
#[tactic(auto, using(crate::proofs::Calls::keeps_levels, crate::proofs::Calls::keeps_told))]
pub fn the_last_call_of_each_kind_sets_the_levels()
    ensures segment { (line : Line) (before : BridgeLevels) (calls : List BridgeCall)
        → level_of line (bridge_after_from before calls).segment
        ≡ last_level line (level_of line before.segment) calls }
    ensures own { (before : BridgeLevels) (calls : List BridgeCall)
        → (bridge_after_from before calls).own ≡ last_told before.own calls }
{}

/// Who follows the edges knows the levels.
#[tactic(auto, using(crate::proofs::Calls::follows_levels))]
pub fn edges_tell_the_levels()
    ensures { (old new : OwnLevels) → following old (bridge_edges old new) ≡ new }
{}
