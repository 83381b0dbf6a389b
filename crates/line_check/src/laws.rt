//! What holds of logs whatever their lines are. Each law is a contract over the definitions of
//! specs/.

ghost use Rattle.std.specs.Prelude.{◌≡◌, ◌<◌, ℕ, List, ◌∷◌, ◌++◌, length};
ghost use Rattle.line_check.specs.Log.{against};

/// A line of more than 4,096 bytes counts by its front: what is against a log is against it
/// whatever stands in that line behind its first 4,097 bytes.
#[tactic(auto, using(crate::proofs::Fronts::long_front))]
pub fn a_long_line_counts_by_its_front()
    ensures { (before : List (List ℕ)) (front more : List ℕ) (after : List (List ℕ))
        → 4096 < length front
        → against (before ++ front ∷ after) ≡ against (before ++ (front ++ more) ∷ after) }
{}
