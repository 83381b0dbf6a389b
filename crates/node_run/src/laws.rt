//! The laws of a run.

ghost use Rattle.std.specs.Prelude.{◌≡◌, true, ℕ, ℤ, List};
ghost use Rattle.line_outside.specs.Given.{Given};
ghost use Rattle.line_outside.specs.declared.way.Way.{Way};
ghost use Rattle.node_run.specs.declared.rules.Rules.{Rules};
ghost use Rattle.node_run.specs.Next.{next_of, goes_on, HasBoundedText};
ghost use Rattle.node_run.specs.Owning.{OwnFollows, OwnIsRead};
ghost use Rattle.node_run.specs.Runs.{Runs};
ghost use Rattle.node_run.specs.Settled.{SettingsAreTheLast};
ghost use Rattle.node_run.specs.State.{RunState, way_at};
ghost use Rattle.node_run.specs.Booked.{EntriesAreTheSteps};

/// Where more than 1,048,576 bytes wait on a way that has a connection, nothing but the end, the
/// refusal of a second connection, the reset of a side or a close comes next.
pub fn too_much_text_closes_a_way()
    ensures { (rules : Rules) (s : RunState) (way : Way) → goes_on (next_of rules s) ≡ true
        → HasBoundedText (way_at way s) }
{}

/// What a machine owns after a run follows from what it owned before and from the acts that the
/// run's log tells, in their order.
pub fn what_a_machine_owns_follows_from_its_log()
    ensures { (rules : Rules) (moments : List ℤ) (s t : RunState) (calls : List Given)
        (log : List ℕ) → Runs rules s moments calls t log → OwnFollows rules s t log }
{}

/// What a machine owns after a run is read off the bytes of the run's log, from what it owned
/// before: a log never tells two accounts.
pub fn what_a_machine_owns_is_read_off_its_log()
    ensures { (rules : Rules) (moments : List ℤ) (s t : RunState) (calls : List Given)
        (log : List ℕ) → Runs rules s moments calls t log → OwnIsRead s t log }
{}

/// After a run the settings of the configuration service are those of the last Set that was taken,
/// or as before; and a side is to be reset exactly where its setting changed.
pub fn the_settings_are_those_of_the_last_set()
    ensures { SettingsAreTheLast }
{}

/// The machine of a run makes exactly the steps of the run's entries, one after the other, and the log
/// tells what is done in them.
pub fn the_entries_are_the_steps()
    ensures { EntriesAreTheSteps }
{}
