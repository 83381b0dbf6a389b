//! How a machine's step is made.

ghost use Rattle.step_rules.specs.Made.{EachStepIsMade};

/// Every step of a machine is made of the pieces of `Made`: rows of the tables, actions of its
/// sessions, closes, deeds by hand, acts that change nothing, and two of them in turn. So what
/// holds of each piece, and of two in turn where it holds of both, holds of the whole step.
pub fn a_step_is_made_of_pieces()
    ensures { EachStepIsMade }
{}
