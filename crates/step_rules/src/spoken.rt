//! When a machine says a text.

ghost use Rattle.step_rules.specs.Spoken.{EachStepIsSpoken};

/// In each step of a machine a text is said at a side only while that side has a connection: not
/// before the step's input makes one, and not behind the act that ends it. A machine that finds the
/// connection of a side closed says so first, and nothing there. All this holds where no handover
/// is under way, and nothing announced, at a side without a connection, and it stays so.
pub fn each_step_is_spoken()
    ensures { EachStepIsSpoken }
{}
