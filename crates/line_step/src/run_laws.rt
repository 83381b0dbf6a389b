//! What holds over the run of every script. Each law is a contract over the definitions of specs/.

ghost use Rattle.std.specs.Prelude.{◌≡◌, List, None, false, is_some};
ghost use Rattle.line_script.specs.declared.line.ScriptLine.{ScriptLine};
ghost use Rattle.line_step.specs.FloorIds.{IdsStay};
ghost use Rattle.line_step.specs.Lies.{has_lie};
ghost use Rattle.line_step.specs.Parts.{IsScriptRun};
ghost use Rattle.line_step.specs.Runs.{IsRun, Point, state_behind};
ghost use Rattle.line_step.specs.State.{no_line};
ghost use Rattle.line_step.specs.Tracks.{TrackLine};

/// Unique ids, and ids that stay: after each line of a script no two boards on the floor share an
/// id; each new id is one that no board had before; and the ids on the floor change only by an
/// insertion, a replacement, a removal, a done `take`, where a board goes to another lane or comes
/// from one, and where a board goes into a bridge's segment unseen. One that comes out of a segment
/// unseen has no id.
#[tactic(auto, using(crate::proofs::FloorLaws::ids_stay))]
pub fn ids_stay()
    ensures { IdsStay }
{}

/// A line of machines is unvouched exactly where one of the lines of its script told what was not
/// so, or let a board come or go unseen. A track is unvouched where one of its own lines did, and it
/// may be for a line of another track.
#[tactic(auto, using(crate::proofs::Vouching::script_remembered, crate::proofs::Vouching::none_lied))]
pub fn lies_are_remembered()
    ensures script { (asked : List ScriptLine) (points : List Point) → IsScriptRun no_line asked points
        → is_some (state_behind no_line points).unvouched ≡ has_lie points }
    ensures track { (asked : List TrackLine) (points : List Point) → IsRun no_line asked points
        → (state_behind no_line points).unvouched ≡ None → has_lie points ≡ false }
{}
