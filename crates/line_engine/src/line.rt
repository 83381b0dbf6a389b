ghost use Rattle.std.specs.Prelude.{◌≡◌, ◌+◌, ◌≤◌, ℕ, None, true, false, IfOk, IsErr, OnErr, length, option_map};
ghost use Rattle.line_link.specs.Flow.{coming};
ghost use Rattle.line_link.specs.Link.{flow_to};
ghost use Rattle.line_step.specs.World.{end_of, link_at, link_of};
ghost use Rattle.line_script.specs.Ranges.{IsLaneWithin, IsWithin};
ghost use Rattle.line_script.specs.declared.line.ScriptLine.TheVariants as lines;
ghost use Rattle.line_step.specs.State.{marks_in};
ghost use Rattle.law_sentences.specs.Along.{GoInOrder};
ghost use Rattle.law_one_standing.specs.Facts.{HasCustodyFacts};
ghost use Rattle.law_one_standing.specs.Reached.{FollowsLine, HasUniqueIds};
ghost use Rattle.law_one_standing.specs.Standing.{HasOneStanding, IsFitLine};
ghost use Rattle.law_sentences.specs.Within.{IsBounded};
ghost use Rattle.law_lanes.specs.Along.{EachLaneLineHasAStep, IsFitLaneLine, IsLaneReached, IsOnOneLane};
ghost use Rattle.law_lanes.specs.Lanes.{lines_of, no_lanes, track, unvouched_of};
ghost use Rattle.law_lanes.specs.Parts.{LaneLineSteps};
ghost use Rattle.law_lanes.specs.Shown.{marked_on, standing_on};
ghost use Rattle.law_lanes.specs.Views.{summary_on};
ghost use Rattle.line_engine.specs.AllMarks.{AreAllMarks};
ghost use Rattle.line_engine.specs.Each.{AreVouchedAlike, EachLaneNow, EachNext};
ghost use Rattle.line_engine.specs.Next.{AnswersNext, BlameNext, ContentsNext, LedgerNext, OpeningsNext, OrderNext, ReplayNext};
ghost use Rattle.line_engine.specs.Seats.{place_of};
ghost use Rattle.line_engine.specs.Whole.{OverLanes};

use crate::seat::place_in;
use crate::tracks::Tracks;
use board_record::BoardId;
use line_base::{Memory, Side, Text};
use line_marks::{LaneMark, LaneStanding, add_marks};
use line_report::{LaneHappened, Summary};
use line_script::{LaneLine, ScriptLine};
use standings::Mark;
use std::alloc::Global;
use std::marker::Model;

/// A line of machines as a script has built it, with the links between them and the floor under
/// them, on one lane or on up to four.
///
/// Machines are numbered from 1 in downstream direction, and lanes from 1. After `Memory` a line is
/// spent: what a script line has done by then is not told, and each later step answers `Memory`.
#[derive(Drop)]
pub struct Line {
    spent: bool,
    tracks: Tracks,
}

impl Model for Line {
    ghost use Rattle.std.specs.Prelude.{◌≡◌, false};
    ghost use Rattle.law_lanes.specs.Lanes.{Lanes};
    ghost use Rattle.line_engine.specs.Kept.{IsKept};
    ghost use Rattle.line_engine.specs.Tracks.{states_of};

    ghost Value = { Lanes };

    ghost view = { λ line. record { spent = line.spent; tracks = states_of line.tracks } };

    ghost invariant = { λ line. line.spent ≡ false → IsKept line.tracks };
}

impl Line {
    /// A line of one lane, without a machine.
    pub fn new(alloc: Global) -> Line
        ensures { result ≡ no_lanes }
    {
        Line {
            spent: false,
            tracks: Tracks::new(alloc),
        }
    }

    /// Does a line of the script, which has this number, and answers what happened: what it did or
    /// the reason why it did nothing, and then the standings that it changed, in ascending order
    /// of id. A stop does several lines one after the other, each with its own standings.
    ///
    /// `Memory` where there is none for what happened, for records and texts; the line is spent
    /// then.
    pub fn step(&mut self, number: u64, line: &LaneLine) -> Result<LaneHappened, Memory>
        requires numbered { number ≡ lines_of self.old + 1 }
        requires few { number ≤ 1000000 }
        requires within { IsLaneWithin line.now }
        ensures spent { self.old.spent ≡ true → IsErr result }
        ensures memory { OnErr result (self.new.spent ≡ true) }
        ensures again { IfOk result (λ told. self.new.spent ≡ false) }
        ensures counted { IfOk result (λ told. lines_of self.new ≡ number) }
        // what it did is the line step; that of a stop are several
        ensures step { IfOk result (LaneLineSteps line.now self.old self.new) }
        // and there is one, for each line from each state, at Memory too
        ensures has_step { EachLaneLineHasAStep }
        // a run of a script has led to where it is then, and so to each lane
        ensures reached { IfOk result (λ _. IsLaneReached self.new) }
        // on each lane: what each machine holds, and what is on its way on each link, stays within
        // the limits; behind a lie too
        ensures bounded { IfOk result (λ _. EachLaneNow IsBounded self.new) }
        // on each lane each record stands with one machine or in one handover, while no line told
        // what was not so
        ensures standing { IfOk result (λ _. unvouched_of self.new ≡ None
            → EachLaneNow HasOneStanding self.new) }
        // and no record is on two lanes then
        ensures one_lane { IfOk result (λ _. unvouched_of self.new ≡ None → IsOnOneLane self.new) }
        // and then where its board lies, and whose half holds it
        ensures custody { IfOk result (λ _. unvouched_of self.new ≡ None
            → EachLaneNow HasCustodyFacts self.new) }
        // no two boards of a lane share an id, and each id was made by a machine of the line
        ensures ids { IfOk result (λ _. EachLaneNow HasUniqueIds self.new) }
        // whatever a lane does next, in each state from the one before the line on: each machine
        // lets its boards go in the order in which they came to it
        ensures order { IfOk result (EachNext OrderNext line.now self.old self.new) }
        // and so it is of the whole line, by what is told of the lane
        ensures order_whole { IfOk result (λ told. unvouched_of self.new ≡ None
            → OverLanes GoInOrder self.old self.new told) }
        // what is told of records leads from the marks before to the marks after
        ensures ledger { IfOk result (EachNext LedgerNext line.now self.old self.new) }
        ensures ledger_whole { IfOk result (λ told. unvouched_of self.new ≡ None
            → OverLanes FollowsLine self.old self.new told) }
        // a record that a machine keeps changes only where its board is marked, or gets a circuit
        // more
        ensures contents { IfOk result (EachNext ContentsNext line.now self.old self.new) }
        // a breach is told only of a side to which a spoiled text flowed in a line before
        ensures blame { IfOk result (EachNext BlameNext line.now self.old self.new) }
        // a handover opens exactly when board and place are announced, behind a lie too
        ensures opens { IfOk result (EachNext OpeningsNext line.now self.old self.new) }
        // a word that is told answers a question that was asked and had no answer, and answers
        // that are kept stay; behind a lie too
        ensures answers { IfOk result (EachNext AnswersNext line.now self.old self.new) }
        // a line supervisor who folds what he is told knows where each board is
        ensures replay { IfOk result (EachNext ReplayNext line.now self.old self.new) }
    {
        law_lanes::laws::each_line_on_lanes_has_a_step();
        if self.spent {
            return Err(Memory);
        }
        is_fit(line);
        self.known();
        law_lanes::laws::each_part_is_reached();
        law_lanes::laws::what_a_run_over_lanes_leads_to();
        law_lanes::laws::each_lane_is_a_track();
        law_lanes::laws::each_run_remembers_its_lies();
        law_sentences::line_bounds::a_line_stays_within_its_bounds();
        law_sentences::first_in_first_out::each_line_keeps_the_order();
        law_one_standing::laws::what_a_run_leads_to();
        law_sentences::contents_kept::contents_are_kept_over_each_line();
        law_one_standing::laws::a_breach_is_told_only_behind_a_spoiled_text();
        law_sentences::line_openings::a_machine_opens_exactly_when_announced();
        law_sentences::work_orders::each_line_answers_once();
        law_supervisor_replay::laws::each_line_keeps_the_replay_right();
        self.play(number, line)
    }

    /// A run of a script has led to it, while it isn't spent.
    fn known(&self)
        requires { self.now.spent ≡ false }
        ensures { IsLaneReached self.now }
    {
        let _ = &self.tracks;
    }

    /// Does a line of the script. While it does the line is spent.
    fn play(&mut self, number: u64, line: &LaneLine) -> Result<LaneHappened, Memory>
        requires unspent { self.old.spent ≡ false }
        requires numbered { number ≡ lines_of self.old + 1 }
        requires few { number ≤ 1000000 }
        requires within { IsLaneWithin line.now }
        ensures memory { OnErr result (self.new.spent ≡ true) }
        ensures again { IfOk result (λ told. self.new.spent ≡ false) }
        ensures step { IfOk result (LaneLineSteps line.now self.old self.new) }
        ensures alike { IfOk result (λ told. AreVouchedAlike self.new) }
    {
        self.spent = true;
        is_fit(line);
        let told = self.tracks.play(number, line)?;
        self.spent = false;
        Ok(told)
    }

    /// Where a board's record stands, and on which lane; `None` exactly where its marks give it no
    /// standing.
    pub fn standing(&self, id: BoardId) -> Option<LaneStanding>
        requires { self.now.spent ≡ false }
        ensures answer { option_map place_of result ≡ standing_on (marked_on self.now id) }
        ensures standing { unvouched_of self.now ≡ None → EachLaneNow HasOneStanding self.now }
        ensures one_lane { unvouched_of self.now ≡ None → IsOnOneLane self.now }
    {
        self.known();
        law_lanes::laws::what_a_run_over_lanes_leads_to();
        law_one_standing::laws::what_a_run_leads_to();
        place_in(self.tracks.seat(id))
    }

    /// The marks of a board on a lane, in ascending order of machine and at a machine kept, outlet,
    /// intake; none exactly where no machine has its record there.
    pub fn marks(&self, lane: u32, id: BoardId) -> &[Mark]
        requires spent { self.now.spent ≡ false }
        requires lane { 1 ≤ lane }
        ensures answer { result.now ≡ marks_in (track lane self.now) id }
        ensures standing { unvouched_of self.now ≡ None → EachLaneNow HasOneStanding self.now }
    {
        self.known();
        law_lanes::laws::what_a_run_over_lanes_leads_to();
        law_one_standing::laws::what_a_run_leads_to();
        match self.tracks.track(lane) {
            Some(track) => track.index.marks(id),
            None => &[],
        }
    }

    /// The marks of a board on all lanes, each with its lane: in ascending order of machine, at a
    /// machine of lane, and at a machine on a lane kept, outlet, intake. `Memory` where there is
    /// none for the list.
    pub fn all_marks(&self, alloc: Global, id: BoardId) -> Result<Vec<LaneMark>, Memory>
        requires { self.now.spent ≡ false }
        ensures answer { IfOk result (λ marks. AreAllMarks self.now id marks.items) }
    {
        let mut marks = Vec::new(alloc);
        for before in 0..self.tracks.lanes() {
            let lane = before + 1;
            add_marks(lane, self.marks(lane, id), &mut marks)?;
        }
        Ok(marks)
    }

    /// How many bytes are on their way to a side of a machine on a lane; 0 where there is no link.
    /// They are never more than 1,048,576, since a link with more is cut (`docs/PROFILE.md`, 'The
    /// link').
    pub fn in_flight(&self, lane: u32, machine: u32, side: Side) -> usize
        requires spent { self.now.spent ≡ false }
        requires lane { 1 ≤ lane }
        ensures count { result ≡ length
            (coming (flow_to (end_of side) (link_at (link_of machine side) (track lane self.now).world))) }
        ensures bounded { result ≤ 1048576 }
    {
        match self.tracks.track(lane) {
            Some(track) => track.state.in_flight(machine, side),
            None => 0,
        }
    }

    /// The numbers of the report's last line.
    pub fn summary(&self) -> Summary
        requires { self.now.spent ≡ false }
        ensures { result ≡ summary_on self.now }
    {
        match self.tracks.sum() {
            Some(summary) => summary,
            None => unreachable!(),
        }
    }

    /// How many lanes it has, 1 to 4.
    pub fn lanes(&self) -> u32
        requires { self.now.spent ≡ false }
        ensures count { result ≡ length self.now.tracks }
        ensures least { 1 ≤ result }
        ensures most { result ≤ 4 }
    {
        self.tracks.lanes()
    }
}

/// The barcode of a line is a text, as its type says, and the place of a circuit has at most nine
/// digits.
fn is_fit(line: &LaneLine)
    requires { IsLaneWithin line.now }
    ensures { IsFitLaneLine line.now }
{
    match line {
        LaneLine::On { line, .. } => is_fit_line(line),
        _ => {}
    }
}

fn is_fit_line(line: &ScriptLine)
    requires { IsWithin line.now }
    ensures { IsFitLine line.now }
{
    match line {
        ScriptLine::Insert { barcode, .. } => is_text(barcode),
        ScriptLine::Query { barcode, .. } => is_asked(barcode),
        ScriptLine::Sub { pos, barcode, .. } => is_circuit(*pos, barcode),
        _ => {}
    }
}

fn is_asked(barcode: &Text)
    ensures { (machine : ℕ) → IsFitLine (lines.Query machine barcode.now) }
{
    let _bytes = barcode.bytes();
}

fn is_circuit(pos: u32, barcode: &Option<Text>)
    requires { pos ≤ 999999999 }
    ensures { (machine id : ℕ) → IsFitLine (lines.Sub machine id pos barcode.now) }
{
    if let Some(text) = barcode {
        let _bytes = text.bytes();
    }
}

fn is_text(barcode: &Option<Text>)
    ensures { (machine : ℕ) → IsFitLine (lines.Insert machine barcode.now) }
{
    if let Some(text) = barcode {
        let _bytes = text.bytes();
    }
}
