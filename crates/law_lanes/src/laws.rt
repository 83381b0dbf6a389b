//! What a line of several lanes is to each of them, and what it tells.

ghost use Rattle.law_lanes.specs.Along.{
  EachFrontIsATrack,
  EachLaneIsATrack,
  EachLaneLineHasAStep,
  EachRecordIsOnOneLane,
  FloorsApart,
  IdsOnLanes,
  IsLaneReached,
  OneLaneAlong,
  OneStandingOnLanes,
  RunsGoOn,
  StandsOnLanes,
  TracksAlong,
};
ghost use Rattle.law_lanes.specs.Alone.{EachScriptOfOneLaneIsATrack};
ghost use Rattle.law_lanes.specs.Lanes.{no_lanes};
ghost use Rattle.law_lanes.specs.Once.{EachLaneScriptHasARun, EachRunRemembers, EachRunTellsOnce};
ghost use Rattle.law_lanes.specs.Reached.{EachPartIsReached};

/// The run of a script over several lanes is on each of them the run of a track, up to the first lie
/// a fit one to which boards come only from other lanes. So far each board on each lane has one
/// standing there, the custody facts hold on each, and no record is on two lanes.
pub fn each_lane_is_a_track()
    ensures tracks { EachLaneIsATrack }
    ensures fronts { EachFrontIsATrack }
    ensures one_lane { EachRecordIsOnOneLane }
    ensures standing { OneStandingOnLanes }
{
    law_link_messages::laws::the_words_of_a_piece_are_the_oldest_messages();
    law_link_messages::laws::a_frame_with_a_nul_is_a_wrong_word();
    law_link_messages::laws::fit_messages_are_sayable();
    law_link_messages::laws::the_words_of_fit_messages_are_fit();
    law_link_messages::laws::the_words_behind_a_nul_are_fit();
}

/// The same of a state that the run of a script over several lanes has led to: a run of a track has
/// led to each lane; and while no line told what was not so, each board on each lane has one
/// standing there, the custody facts hold, and no record is on two lanes. And in any case no two
/// boards share an id, on one lane or on two, and each id was made by a machine of the line.
pub fn what_a_run_over_lanes_leads_to()
    ensures tracks { TracksAlong }
    ensures one_lane { OneLaneAlong }
    ensures standing { StandsOnLanes }
    ensures ids { IdsOnLanes }
    ensures apart { FloorsApart }
{
    law_link_messages::laws::the_words_of_a_piece_are_the_oldest_messages();
    law_link_messages::laws::a_frame_with_a_nul_is_a_wrong_word();
    law_link_messages::laws::fit_messages_are_sayable();
    law_link_messages::laws::the_words_of_fit_messages_are_fit();
    law_link_messages::laws::the_words_behind_a_nul_are_fit();
    law_one_standing::laws::what_a_run_leads_to();
}

/// The run of a script over several lanes begins with a line without a machine, and goes on behind
/// each of its lines, up to 1,000,000 of them.
pub fn a_run_over_lanes_goes_on()
    ensures first { IsLaneReached no_lanes }
    ensures more { RunsGoOn }
{}

/// Each line of a script over several lanes has a step from each state that the run of one has led
/// to: the state after it, and what is told.
pub fn each_line_on_lanes_has_a_step()
    ensures { EachLaneLineHasAStep }
{
    law_link_messages::laws::the_words_of_a_piece_are_the_oldest_messages();
    law_link_messages::laws::a_frame_with_a_nul_is_a_wrong_word();
    law_link_messages::laws::fit_messages_are_sayable();
    law_link_messages::laws::the_words_of_fit_messages_are_fit();
    law_link_messages::laws::the_words_behind_a_nul_are_fit();
}

/// And of each state of the next line of the script, of the one before it and of that behind each of
/// its parts: a run of a track has led to each lane.
pub fn each_part_is_reached()
    ensures { EachPartIsReached }
{
    law_link_messages::laws::the_words_of_a_piece_are_the_oldest_messages();
    law_link_messages::laws::a_frame_with_a_nul_is_a_wrong_word();
    law_link_messages::laws::fit_messages_are_sayable();
    law_link_messages::laws::the_words_of_fit_messages_are_fit();
    law_link_messages::laws::the_words_behind_a_nul_are_fit();
}

/// A script that names no lane, sets no lanes and moves no board to another one does what it does
/// over one track, and tells the same text.
#[tactic(auto, using(crate::proofs::Alone::script_alone))]
pub fn a_script_of_one_lane_is_a_track()
    ensures { EachScriptOfOneLaneIsATrack }
{}

/// Each script over several lanes has a run, from a line without a machine: a point for each thing
/// that each of its lines does.
#[tactic(auto, using(crate::proofs::HasRuns::each_run))]
pub fn each_script_on_lanes_has_a_run()
    ensures { EachLaneScriptHasARun }
{}

/// A line is unvouched exactly where one of the lines of its script told what was not so, or let a
/// board come or go unseen.
#[tactic(auto, using(crate::proofs::Remembered::run_remembered))]
pub fn each_run_remembers_its_lies()
    ensures { EachRunRemembers }
{}

/// What the run of a script tells is one thing, and so are the numbers of its last line.
pub fn each_run_tells_once()
    ensures { EachRunTellsOnce }
{
    node_core::laws::one_meaning();
}
