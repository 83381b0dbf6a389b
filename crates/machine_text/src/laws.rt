//! The laws of a log.

ghost use Rattle.std.specs.Prelude.{List, ℕ};
ghost use Rattle.machine_port.specs.Port.{PortState};
ghost use Rattle.machine_text.specs.Logs.{IsLog, OwnIsRead};

/// What a machine owns behind any steps is read off the bytes of their lines, from what it owned
/// before.
pub fn what_a_machine_owns_is_read_off_its_log()
    ensures { (s t : PortState) (log : List ℕ) → IsLog s log t → OwnIsRead s t log }
{}
