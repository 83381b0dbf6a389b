//! What is read off the bytes of a report of several lanes.

ghost use Rattle.law_report_ledger.specs.Asked.{LaneReportTellsStarts};
ghost use Rattle.law_report_ledger.specs.Fronts.{LaneFrontsTellLedgers};
ghost use Rattle.law_report_ledger.specs.Ledgers.{LaneReportTellsLedger};
ghost use Rattle.law_report_ledger.specs.Row.{IsReadOffTheRow};
ghost use Rattle.law_report_ledger.specs.Standings.{LaneReportTellsStandings};

/// Of the report of each run of a script over several lanes, up to the first line that told what was
/// not so, and of each lane: the deeds of that lane that are read off its bytes are legal one after
/// the other, and behind them the ledger that they make has exactly the marks of the machines on the
/// lane, and gives each id the standings that those give. As each front of a run is a run, it is so
/// behind each line of the script.
pub fn a_report_tells_the_ledger_of_each_lane()
    ensures { LaneReportTellsLedger }
{
    law_lanes::laws::each_lane_is_a_track();
    law_one_standing::laws::the_ledger_follows_the_report();
}

/// And of the same lines, at each gap of each lane: where the bytes tell that a handover opens, the
/// last start that they told there is of this board, and nothing was opened, refused or settled
/// there since.
pub fn a_report_tells_the_starts_of_each_lane()
    ensures { LaneReportTellsStarts }
{
    law_lanes::laws::each_lane_is_a_track();
    law_history::laws::what_opens_was_started_last();
}

/// And of each id the standing that the text told last, with its lane, is the one that the ledger of
/// that lane gives; those of the others give it none.
pub fn a_report_tells_the_standings_of_each_lane()
    ensures { LaneReportTellsStandings }
{
    law_lanes::laws::each_lane_is_a_track();
    a_report_tells_the_ledger_of_each_lane();
}

/// Of each front of such a report, cut anywhere, the lines before those of its last number are the
/// whole report of the lines of the script with smaller numbers, none of them in part: so they tell
/// the ledger and the standings of each lane behind those.
pub fn a_front_tells_the_ledger_of_each_lane()
    ensures { LaneFrontsTellLedgers }
{
    a_report_tells_the_ledger_of_each_lane();
    a_report_tells_the_standings_of_each_lane();
}

/// A worked row: a board is put in on a lane, moved to another one, and started and opened there;
/// behind the line that tells a lie nothing is read.
#[tactic(auto, using(crate::proofs::Row::is_read_off_the_row))]
pub fn a_row_is_read_off_its_bytes()
    ensures { IsReadOffTheRow }
{}
