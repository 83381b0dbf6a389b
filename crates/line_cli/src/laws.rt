//! The laws of what the program writes.

ghost use Rattle.std.specs.Prelude.{◌≡◌, ℕ, List};
ghost use Rattle.line_commands.specs.Answered.{EachInputHasOneAnswer};
ghost use Rattle.line_commands.specs.Making.{IsMakeText};
ghost use Rattle.stream_text.specs.ReadText.{IsReadText};
ghost use Rattle.line_commands.specs.Report.{IsReport};
ghost use Rattle.line_cli.specs.Tracks.{EachFrontIsRun, EachLaneIsRun, EachRecordHasOneLane, EachRecordStandsOnLanes};

/// A stream of messages has one read text.
pub fn read_once()
    ensures { (bytes one other : List ℕ) → IsReadText bytes one → IsReadText bytes other
        → one ≡ other }
{
    hermes_horizontal::spelled_once();
    hermes_horizontal::refused_once();
    hermes_horizontal::refused_or_spelled();
}

/// A script has one report.
pub fn one_report()
    ensures { (bytes one other : List ℕ) → IsReport bytes one → IsReport bytes other
        → one ≡ other }
{
    law_lanes::laws::each_run_tells_once();
}

/// A number has one make text.
pub fn one_make_text()
    ensures { (number : ℕ) (one other : List ℕ) → IsMakeText number one → IsMakeText number other
        → one ≡ other }
{
    law_lanes::laws::each_run_tells_once();
}

/// On each lane the run of a script that is read is the run of a track; up to the first line that
/// told what was not so, on whatever lane, one of which each law over runs speaks: each board has one
/// standing on its lane, and no record is on two.
pub fn each_lane_is_run()
    ensures lanes { EachLaneIsRun }
    ensures fronts { EachFrontIsRun }
    ensures standing { EachRecordStandsOnLanes }
    ensures one_lane { EachRecordHasOneLane }
{
    law_lanes::laws::each_lane_is_a_track();
}

/// Whatever words and bytes have one answer of `line_main`, where nothing fails and memory is
/// not wanting: of a script its first refusal, and else whether a line told what was not so; of a
/// stream whether it is too large; of a log the first reason against it.
pub fn each_input_has_one_answer()
    ensures { EachInputHasOneAnswer }
{
    law_lanes::laws::each_run_tells_once();
    law_lanes::laws::each_script_on_lanes_has_a_run();
}
