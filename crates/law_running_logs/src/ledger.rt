//! The ledger of a run. Each law is a contract over the definitions of specs/.

ghost use Rattle.std.specs.Prelude.{◌≡◌, List};
ghost use Rattle.node_core.specs.declared.act.Act.{Act};
ghost use Rattle.law_running_line.specs.Reading.{Behind, Reading, Strictly};
ghost use Rattle.law_running_line.specs.Running.{Running};
ghost use Rattle.law_running_line.specs.RunSteps.{RunsTo};
ghost use Rattle.law_running_logs.specs.LedgerExample.{TellsAnInsertion};
ghost use Rattle.law_running_logs.specs.Told.{LedgerFollows, RelationGoesOn, StandsAlong, acts_along, points_of};

/// THE LAW OVER RUNS, whatever the reading is, where the relation of running machines goes on in each
/// of its steps: what the machines of a run tell, their acts in the order of the steps, is legal
/// deed after deed from the empty ledger on; and behind each step the ledger has exactly the marks
/// of the machines, and gives each id its standing. Each board's record has one standing there, and
/// a deed at a machine's entry is told only where a machine stands above it.
pub fn the_ledger_follows_where_the_relation_goes_on()
    ensures follows { (reading : Reading) → RelationGoesOn reading → LedgerFollows reading }
    ensures stands { (reading : Reading) → RelationGoesOn reading → StandsAlong reading }
{}

/// So it is in each run in which every machine reads all that its sensors saw before it takes an
/// input.
pub fn the_ledger_follows_each_run_that_reads_first()
    ensures goes_on { RelationGoesOn Strictly }
    ensures follows { LedgerFollows Strictly }
    ensures stands { StandsAlong Strictly }
{
    law_running_line::laws::the_relation_goes_on_in_a_turn();
}

/// And so it is in each run in which a message is heard once all is read that its receiver's sensors
/// had seen before it was said, and each board is let go behind the reading.
pub fn the_ledger_follows_each_run_behind_the_reading()
    ensures goes_on { RelationGoesOn Behind }
    ensures follows { LedgerFollows Behind }
    ensures stands { StandsAlong Behind }
{
    law_running_line::laws::the_relation_goes_on_behind_the_reading();
}

/// The acts of the points of a run are all that is done in it, in its order.
pub fn the_points_tell_all_that_is_done()
    ensures { (reading : Reading) (s u : Running) (acts : List Act) (run : RunsTo reading s acts u)
        → acts_along (points_of run) ≡ acts }
{}

/// There are such runs: new machines connect, and one deed is told.
pub fn what_new_machines_tell()
    ensures { TellsAnInsertion }
{}
