ghost use Rattle.law_sentences.specs.Contents.{ContentsStayWhole};
ghost use Rattle.law_sentences.specs.There.{StandingsNameWhatIsThere};
ghost use Rattle.law_sentences.specs.Order.{FirstInFirstOut};
ghost use Rattle.line_step.specs.FloorIds.{IdsStay};
ghost use Rattle.law_lanes.specs.Alone.{EachScriptOfOneLaneIsATrack};
ghost use Rattle.law_history.specs.LetGo.{WhatSettlesLeft};
ghost use Rattle.law_history.specs.Offered.{WhatSettlesWasOffered};
ghost use Rattle.law_history.specs.Opened.{WhatOpensStarted};
ghost use Rattle.law_history.specs.Settled.{BoardsSettleWhenSaid};
ghost use Rattle.law_history.specs.Started.{WhatIsHeldStarted};
ghost use Rattle.law_sentences.specs.Announced.{OpensWhenAnnounced};
ghost use Rattle.law_one_standing.specs.Blame.{NoFalseBlame};
ghost use Rattle.law_sentences.specs.Records.{ContentsAreKept};
ghost use Rattle.law_one_standing.specs.Facts.{CustodyFacts};
ghost use Rattle.law_one_standing.specs.Replay.{LedgerFollows};
ghost use Rattle.law_one_standing.specs.Standing.{OneStanding};
ghost use Rattle.law_supervisor_replay.specs.Replay.{ReplayAgrees};
ghost use Rattle.law_lane_steps.specs.Play.{EndsForWhoeverGoesOnOnLanes};
ghost use Rattle.law_lane_steps.specs.Steps.{EndsWithinTwelveOnLanes};
ghost use Rattle.law_twelve_steps.specs.Example.{IsReachedAnnounced};
ghost use Rattle.law_twelve_steps.specs.Twelve.{EndsWithinTwelveSteps};
ghost use Rattle.law_twelve_steps.specs.Play.{EndsForWhoeverGoesOn};
ghost use Rattle.law_sentences.specs.Answers.{OneAnswer};
ghost use Rattle.line_commands.specs.Answered.{EachInputHasOneAnswer, IsAnswered};
ghost use Rattle.line_commands.specs.Command.{DoesAs, FitsWords, is_run, is_read, is_check};
ghost use Rattle.line_status.specs.Status.{HasCauses};
ghost use Rattle.line_cli.specs.Deeds.{EachFrontTellsItsLedger, EachReportTellsItsLedger, EachReportTellsItsStandings, EachReportTellsItsStarts};
ghost use Rattle.line_commands.specs.Making.{EachNumberHasOneMakeText, made_number};
ghost use Rattle.line_commands.specs.Premises.{ScriptsAreFit};
ghost use Rattle.stream_text.specs.ReadText.{EachStreamHasOneReadText};
ghost use Rattle.line_commands.specs.Report.{EachScriptHasOneReport};
ghost use Rattle.line_cli.specs.Right.{SparesRight};
ghost use Rattle.line_cli.specs.Tracks.{EachFrontIsRun, EachLaneDoesItsScript, EachLaneIsRun, EachRecordHasOneLane, EachRecordStandsOnLanes, EachScriptHasOwnIds, EachShiftKeepsTheRecord};

use crate::laws::{
    each_input_has_one_answer, each_lane_is_run, one_make_text, one_report, read_once,
};
use line_base::Words;
use line_commands::{Status, do_words};
use line_outside::{Sink, Source};
use std::alloc::Global;

/// The program `line`: does what the words behind its name ask for.
///
/// With `run` it reads a script from `script` and writes its report to `report`: `ScriptRefused`
/// where a line of it is refused, `Unvouched` where all was done and a line told what was not so.
/// With `read` it reads a stream of messages from `script` and writes a line for each to `report`;
/// a stream of more than 1,073,741,824 bytes is `ScriptRefused` as `TooLarge`, with line 0, behind
/// the lines of what stands in its first 1,073,741,824. With `check` it reads the merged log of a
/// line's machines from `script` and writes to `report` that it is right, or the first reason
/// against it at the first line where one holds, which is `Refuted`. With `make` and a number from
/// 1 to 50,000, of at most 15 digits, it runs the script that is made from the number and writes
/// the last line of its report to `report`, with the fold of the whole report behind it; nothing
/// is read. Other words are answered by `Usage` and the usage text, and nothing is read.
pub fn line_main<S: Source, K: Sink>(
    alloc: Global,
    words: &Words,
    script: &mut S,
    report: &mut K,
) -> Status
    ensures does { DoesAs (is_run words.now) (is_read words.now) (is_check words.now)
        (made_number words.now) (S.left script.old) (S.left script.new) (K.contents report.old)
        (K.contents report.new) (K.faults report.old) (K.faults report.new) result }
    ensures fits { FitsWords (is_run words.now) (is_read words.now) (is_check words.now)
        (made_number words.now) result }
    ensures causes { HasCauses result (S.faults script.old) (S.faults script.new)
        (K.faults report.old) (K.faults report.new) }
    // in one sentence: the answer is the one that words and bytes have, or a fault whose count
    // rose, or Memory
    ensures complete { IsAnswered (is_run words.now) (is_read words.now) (is_check words.now)
        (made_number words.now) (S.left script.old) (S.faults script.old) (S.faults script.new)
        (K.faults report.old) (K.faults report.new) result }
    // and whatever words and bytes have one
    ensures determined { EachInputHasOneAnswer }
    // each script has a report, and one: each of its lines has a step from whatever state. So
    // what was written at a fault or Memory is a front of that one
    ensures report { EachScriptHasOneReport }
    // and so has each stream a read text, since each frame is spelled or refused
    ensures reading { EachStreamHasOneReadText }
    // and each number a make text
    ensures made { EachNumberHasOneMakeText }
    // on each lane the run of every script is the run of a track
    ensures lanes { EachLaneIsRun }
    // of the script's own lines, each as it is to that lane
    ensures lane_lines { EachLaneDoesItsScript }
    // up to the first lie on any lane one of which the laws over runs below speak
    ensures lane_fronts { EachFrontIsRun }
    // so each record stands with one machine or in one named handover of its lane
    ensures lane_standing { EachRecordStandsOnLanes }
    // and up to that no record is on two lanes
    ensures one_lane { EachRecordHasOneLane }
    // over a shift the record of the board stays the same, with all its parts
    ensures shifts { EachShiftKeepsTheRecord }
    // and always no two boards on all lanes share an id, and an id that is made on any lane was named
    // by hand on none before
    ensures lane_ids { EachScriptHasOwnIds }
    // a script that names no lane does and tells what it does over one track
    ensures alone { EachScriptOfOneLaneIsATrack }
    // unique ids on the floor, and ids that stay, over the run of every script
    ensures ids { IdsStay }
    // each record with one machine or in one named handover, over the run of every script up to
    // its first lie
    ensures standing { OneStanding }
    // and what a standing names is there: a machine, or a gap between two
    ensures there { StandingsNameWhatIsThere }
    // where its board lies then, and whose half holds it
    ensures custody { CustodyFacts }
    // what the report tells of records is what becomes of them
    ensures ledger { LedgerFollows }
    // and so the bytes of the report of a script, read by someone who has them alone, give the
    // ledger of where each record is on each lane
    ensures tells { EachReportTellsItsLedger }
    // the one that gives each id the standing that they told of it last
    ensures told { EachReportTellsItsStandings }
    // and each opening that they tell answers the last start at its gap of that lane
    ensures starts { EachReportTellsItsStarts }
    // and of a front that a fault leaves, cut anywhere, the lines before those of its last number
    // give the ledger behind the lines of the script of which they tell
    ensures fronts { EachFrontTellsItsLedger }
    // each machine lets its boards go in the order in which they came to it
    ensures order { FirstInFirstOut }
    // a record that is kept changes only where its board is marked
    ensures contents { ContentsAreKept }
    // in its quality alone; what is opened, comes back or settles is the record that it was
    ensures whole { ContentsStayWhole }
    // a breach is told only of a side to which a spoiled text flowed
    ensures blame { NoFalseBlame }
    // a board settles only when it was said that its transport ended
    ensures said { BoardsSettleWhenSaid }
    // and its record is the one that was let go
    ensures settles { WhatSettlesLeft }
    // word for word the one that was offered, and the machine keeps it then
    ensures offered { WhatSettlesWasOffered }
    // which was started last there
    ensures started { WhatIsHeldStarted }
    // and a handover opens for the last start at its gap alone, which nothing has answered yet
    ensures asked { WhatOpensStarted }
    // an undisturbed handover ends within twelve link steps
    ensures steps { EndsWithinTwelveSteps }
    // so it does on each lane of a script, in the script's own lines
    ensures lane_steps { EndsWithinTwelveOnLanes }
    // and a script of six lines leads to a state from which it is to
    ensures announced { IsReachedAnnounced }
    // whoever does link steps that can be done, until none is left, has ended it after at most
    // twelve
    ensures goes_on { EndsForWhoeverGoesOn }
    // on each lane of a script too
    ensures lane_goes_on { EndsForWhoeverGoesOnOnLanes }
    // which ask of a script what each script that is read has
    ensures fit { ScriptsAreFit }
    // a handover opens exactly when board and place are announced, over the run of every script
    ensures opens { OpensWhenAnnounced }
    // what is told as an answer to a question for a work order is the one answer that its machine
    // keeps, over the run of every script
    ensures answers { OneAnswer }
    // the log of running machines is never refuted, where each read all that its sensors saw before
    // it took an input, or heard a message once it had read all that they had seen before it was said
    // and each board was let go behind the reading, and where it is merged in the order of their steps
    ensures right { SparesRight (S.left script.old) result }
    // where each machine is supervised before its first mark, a supervisor who folds what it is
    // told knows where each board is
    ensures replay { ReplayAgrees }
{
    one_report();
    read_once();
    one_make_text();
    each_input_has_one_answer();
    each_lane_is_run();
    law_lanes::laws::each_script_on_lanes_has_a_run();
    law_lanes::laws::a_script_of_one_lane_is_a_track();
    law_lane_script::laws::each_lane_does_its_lines();
    law_lane_shifts::laws::each_shift_leaves_the_record();
    law_lane_ids::laws::ids_are_new_on_all_lanes();
    law_one_standing::laws::one_standing_after_each_line();
    law_one_standing::laws::the_custody_facts_hold_after_each_line();
    law_one_standing::laws::the_ledger_follows_the_report();
    law_report_ledger::laws::a_report_tells_the_ledger_of_each_lane();
    law_report_ledger::laws::a_report_tells_the_standings_of_each_lane();
    law_report_ledger::laws::a_report_tells_the_starts_of_each_lane();
    law_report_ledger::laws::a_front_tells_the_ledger_of_each_lane();
    law_sentences::first_in_first_out::boards_go_in_the_order_in_which_they_came();
    law_sentences::contents_kept::contents_are_kept_over_each_line();
    law_sentences::contents_kept::contents_stay_whole();
    law_sentences::contents_kept::standings_name_what_is_there();
    law_one_standing::laws::a_breach_is_told_only_behind_a_spoiled_text();
    law_history::laws::boards_settle_when_it_is_said();
    law_history::laws::what_settles_is_what_left();
    law_history::laws::what_settles_was_offered();
    law_history::laws::what_an_intake_holds_was_started_last();
    law_history::laws::what_opens_was_started_last();
    law_twelve_steps::laws::an_undisturbed_handover_ends_within_twelve_link_steps();
    law_lane_steps::laws::an_undisturbed_handover_of_a_lane_ends();
    law_twelve_steps::laws::an_announced_state_is_reached();
    law_twelve_steps::whoever_goes_on::whoever_goes_on_ends_it();
    law_lane_steps::laws::whoever_goes_on_a_lane_ends_it();
    law_sentences::line_openings::a_machine_opens_exactly_when_announced();
    law_sentences::work_orders::each_query_has_one_answer();
    law_running_logs::laws::the_merged_log_of_a_run_that_reads_first_is_right();
    law_running_logs::laws::the_merged_log_of_a_run_behind_the_reading_is_right();
    law_supervisor_replay::laws::the_replay_agrees_with_the_marks();
    do_words(alloc, words, script, report)
}
