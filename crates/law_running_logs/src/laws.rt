//! The merged log of a run. Each law is a contract over the definitions of specs/.

ghost use Rattle.std.specs.Prelude.{◌≡◌, ◌++◌, ℕ, codes, decimal, true};
ghost use Rattle.node_core.specs.declared.act.Act.{Act};
ghost use Rattle.machine_log.specs.Texts.{line_of};
ghost use Rattle.law_running_line.specs.Reading.{Behind, Reading, Strictly};
ghost use Rattle.law_running_logs.specs.Told.{RelationGoesOn};
ghost use Rattle.law_running_logs.specs.Example.{HasALog};
ghost use Rattle.law_running_logs.specs.Merged.{merged_line, text_of};
ghost use Rattle.law_running_logs.specs.Right.{LogIsRight};

/// THE LAW, whatever the reading is, where the relation of running machines goes on in each step of
/// their runs: nothing is against the log that they make, merged in the order of their steps. Its
/// deeds are legal in their order, and behind each group of lines each id with a mark has one
/// standing.
pub fn the_merged_log_is_right_where_the_relation_goes_on()
    ensures { (reading : Reading) → RelationGoesOn reading → LogIsRight reading }
{
    crate::ledger::the_ledger_follows_where_the_relation_goes_on();
}

/// So it is of each run in which every machine reads all that its sensors saw before it takes an
/// input. There are such logs.
pub fn the_merged_log_of_a_run_that_reads_first_is_right()
    ensures right { LogIsRight Strictly }
    ensures some { HasALog }
{
    crate::ledger::the_ledger_follows_each_run_that_reads_first();
}

/// And of each run in which a message is heard once all is read that its receiver's sensors had seen
/// before it was said, and each board is let go behind the reading.
pub fn the_merged_log_of_a_run_behind_the_reading_is_right()
    ensures { LogIsRight Behind }
{
    crate::ledger::the_ledger_follows_each_run_behind_the_reading();
}

/// A line of the merged log is the line of the machine's own log with its place in the line in
/// front.
pub fn a_merged_line_is_the_machines_own()
    ensures { (machine number turn : ℕ) (act : Act)
        → (decimal machine ++ codes " ") ++ line_of true turn number act
        ≡ merged_line machine turn (text_of number act) ++ codes "\n" }
{}
