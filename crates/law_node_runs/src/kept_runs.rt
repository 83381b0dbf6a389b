//! The laws of runs over a book. They are contracts over the definitions of specs/.

ghost use Rattle.law_node_runs.specs.Anew.{KeptLogTellsOwn, KeptRunsAreRuns, NewMachinesRunAsEver};
ghost use Rattle.law_node_runs.specs.First.{CallsComeFirst};
ghost use Rattle.law_node_runs.specs.Kept.{EachKeptRunIsOne};
ghost use Rattle.law_node_runs.specs.PowerCut.{PowerCutsAreSurvived};

/// Equal answers at equal moments give equal calls, an equal log, equal entries and an equal end.
pub fn a_run_over_a_book_is_one()
    ensures { EachKeptRunIsOne }
{
    node_core::laws::one_meaning();
    hermes_vertical::spelled_once();
    hermes_vertical::refused_once();
    config_service::spelled_once();
    config_service::refused_once();
}

/// The call of a move that makes a step, if it makes one, is the call that comes next before the step.
pub fn the_call_of_a_move_comes_before_its_step()
    ensures { CallsComeFirst }
{}

/// Behind turn 0 a run over a book is a run as without a book.
pub fn behind_turn_0_a_run_is_as_ever()
    ensures { KeptRunsAreRuns }
{}

/// A new machine makes the same calls and the same log with a book and without.
pub fn a_new_machine_runs_as_ever()
    ensures { NewMachinesRunAsEver }
{}

/// What a machine owns after a run over a book is read off the bytes of the run's log.
pub fn what_a_machine_owns_is_read_off_its_log()
    ensures { KeptLogTellsOwn }
{
    node_run::laws::the_entries_are_the_steps();
}

/// A power cut: whichever of a run's entries the disk has, and however many bytes of the next one, the
/// machine begins again from them, with its drives, where the run was when it had kept those.
pub fn a_power_cut_is_survived()
    ensures { PowerCutsAreSurvived }
{
    restart_book::laws::a_kept_book_is_resumed();
}
