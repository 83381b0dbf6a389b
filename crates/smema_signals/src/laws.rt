//! What holds of the signals whatever is called. Each law is a contract over the definitions that
//! the calls meet.

ghost use Rattle.std.specs.Prelude.{◌≡◌, ◌↔◌, ◌∷◌, [], ◌++◌, Bool, List, IsNone};
ghost use Rattle.smema_signals.specs.declared.levels.Levels.{Levels as Level};
ghost use Rattle.smema_signals.specs.Edge.{edge, edges, following};
ghost use Rattle.smema_signals.specs.Giver.{GiverCall, giver_levels_from, set_by_giver};
ghost use Rattle.smema_signals.specs.Taker.{TakerCall, set_by_taker, taker_levels_from};

/// There is an edge exactly where a level changed, and who follows the edges knows the levels.
#[tactic(auto, using(crate::proofs::Calls::edge_exactly, crate::proofs::Calls::follows_levels))]
pub fn edges_tell_the_levels()
    ensures exactly { (old new : Bool) → IsNone (edge old new) ↔ (old ≡ new) }
    ensures followed { (old new : Level) → following old (edges old new) ≡ new }
{}

/// The last call sets the levels, whatever was called before.
#[tactic(auto, using(crate::proofs::Calls::last_giver_call, crate::proofs::Calls::last_taker_call))]
pub fn the_last_call_sets_the_levels()
    ensures giver { (before : Level) (calls : List GiverCall) (call : GiverCall)
        → giver_levels_from before (calls ++ call ∷ []) ≡ set_by_giver call }
    ensures taker { (before : Level) (calls : List TakerCall) (call : TakerCall)
        → taker_levels_from before (calls ++ call ∷ []) ≡ set_by_taker call }
{}
