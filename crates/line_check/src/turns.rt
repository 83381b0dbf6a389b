ghost use Rattle.line_check.specs.Group.{IsOfLine};

use crate::group::Group;

/// The greatest turn of each machine so far.
#[derive(Drop)]
pub struct Turns {
    greatest: [u64; 64],
}

impl Turns {
    ghost use Rattle.std.specs.Prelude.{◌≡◌, ℕ, List, [], ◌∷◌, ◌++◌, Some, false};
    ghost use Rattle.line_check.specs.LogLine.{group_of};
    ghost use Rattle.line_check.specs.Log.{is_late_in};
    ghost use Rattle.line_check.specs.Turns.{AreTurns};

    /// Before the first line.
    pub fn new() -> Turns
        ensures { AreTurns [] result }
    {
        Turns { greatest: [0; 64] }
    }

    /// Whether a turn is less than an earlier one of its machine.
    pub fn is_late(&self, group: Group) -> bool
        requires { IsOfLine group }
        ensures { (lines : List (List ℕ)) → AreTurns lines self.now
            → result ≡ is_late_in (Some group) lines }
    {
        group.turn < self.greatest[group.machine as usize - 1]
    }

    /// Notes the turn of a line that is not late.
    pub fn note(&mut self, group: Group)
        requires { IsOfLine group }
        ensures { (lines : List (List ℕ)) (line : List ℕ) → AreTurns lines self.old
            → group_of line ≡ Some group → is_late_in (Some group) lines ≡ false
            → AreTurns (lines ++ line ∷ []) self.new }
    {
        self.greatest[group.machine as usize - 1] = group.turn;
    }
}
