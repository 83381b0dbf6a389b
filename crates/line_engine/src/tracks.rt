//! The lanes of a line: a line of the script is done on one of them, on two, or on all.

ghost use Rattle.std.specs.Prelude.{◌≡◌, ◌≤◌, ◌<◌, ◌+◌, ◌-◌, ◌^◌, ◌∷◌, ◌++◌, ℕ, IfOk, IfSome, OnOk, drop, if◌then◌else◌, is_some, length, map, not, true};
ghost use Rattle.std.specs.Option.{option_copied};
ghost use Rattle.law_lanes.specs.Lanes.{counted, has_lane, lines_of, no_lanes};
ghost use Rattle.law_lanes.specs.Reasons.{may_on};
ghost use Rattle.law_lanes.specs.Shown.{fronts_shown, shown_on};
ghost use Rattle.law_lanes.specs.Steps.{LanesDo, RequestDoes};
ghost use Rattle.law_lanes.specs.Views.{summary_on};
ghost use Rattle.line_report.specs.declared.happening.Reason.TheVariants as reasons;
ghost use Rattle.line_script.specs.Ranges.{IsBetween, IsLaneWithin, IsWithin};
ghost use Rattle.line_script.specs.declared.line.LaneLine.TheVariants as lane_lines;
ghost use Rattle.line_step.specs.Lines.{LineDoes};
ghost use Rattle.line_step.specs.Parts.{count_behind};
ghost use Rattle.line_step.specs.Reasons.{may_do, no_if};
ghost use Rattle.line_step.specs.Requests.{adds, request_of, stops};
ghost use Rattle.line_step.specs.State.{LineState};
ghost use Rattle.node_core.specs.declared.input.No.TheVariants as nos;
ghost use Rattle.line_machines.specs.Given.{is_of_lane};
ghost use Rattle.line_engine.specs.Kept.{is_counted};
ghost use Rattle.line_engine.specs.Each.{GoesOn};
ghost use Rattle.line_marks.specs.Indexed.{marks_listed};
ghost use Rattle.line_marks.specs.Seats.{both, own_seat};
ghost use Rattle.line_engine.specs.Seats.{seat_beside as seat_on_others, seat_listed};
ghost use Rattle.line_marks.specs.declared.seat.Seat.TheVariants.{Nowhere};
ghost use Rattle.std.specs.Prelude.{◌==◌, SomeIff};
ghost use Rattle.line_engine.specs.Summed.{added_up, is_told};
ghost use Rattle.std.specs.List.{AllByRecursion};
ghost use Rattle.line_engine.specs.Sharing.{counted_track, grown};
ghost use Rattle.line_engine.specs.Tracks.{AreKept, FollowsDone, FollowsOne, HasRoom, IsReady, StepsOn, TellsDone, empty_track, empty_tracks, lanes_of, made_told, states_of, track_in};

use crate::named::may_name;
use crate::seat::tell_seat;
use crate::show::show_front;
use crate::track::Track;
use board_record::BoardId;
use line_base::Memory;
use line_machines::State;
use line_marks::{Index, Moved, Seat, Span, both, ids_named, own_seat, stepped};
use line_report::{Happened, Happening, LaneHappened, Reason, Summary};
use line_script::{LaneLine, ScriptLine};
use node_core::No;
use std::alloc::Global;
use std::marker::Model;

/// The lanes of a line, that of the first one first.
#[derive(Drop)]
pub struct Tracks {
    pub(crate) alloc: Global,
    pub(crate) first: Track,
    pub(crate) others: Vec<Track>,
}

impl Model for Tracks {
    ghost use Rattle.std.specs.Prelude.{List, ◌∷◌};
    ghost use Rattle.line_engine.specs.declared.track.Track.{Track};

    ghost Value = { List Track };

    ghost view = { λ tracks. tracks.first ∷ tracks.others.items };
}

impl Tracks {
    /// One lane without a machine.
    pub fn new(alloc: Global) -> Tracks
        ensures none { lanes_of result ≡ no_lanes }
        ensures kept { AreKept result }
    {
        Tracks {
            alloc,
            first: empty_track(alloc, 0, None),
            others: Vec::new(alloc),
        }
    }

    pub fn alloc(&self) -> Global {
        self.alloc
    }

    // ---- lanes

    /// The track of a lane; `None` exactly where there is none.
    pub fn track(&self, lane: u32) -> Option<&Track>
        ensures { option_copied result ≡ track_in lane self.now }
    {
        if lane == 0 {
            return None;
        }
        if lane == 1 {
            return Some(&self.first);
        }
        self.others.get(lane as usize - 2)
    }

    /// How many lanes there are.
    pub fn lanes(&self) -> u32
        requires { length self.now ≤ 4 }
        ensures count { result ≡ length self.now }
        ensures least { 1 ≤ result }
    {
        self.others.len() as u32 + 1
    }

    /// Where a board stands, by what the indexes of all lanes have.
    pub fn seat(&self, id: BoardId) -> Seat
        requires { length self.now ≤ 4 }
        ensures { result ≡ seat_listed id 1 self.now }
    {
        let first = own_seat(1, self.first.index.marks(id));
        seat_with(first, id, self.others.as_slice())
    }

    /// Where a board stands, by what the indexes of all lanes but this one have.
    fn seat_beside(&self, own: u32, id: BoardId) -> Seat
        requires { length self.now ≤ 4 }
        ensures { result ≡ seat_on_others own id 1 self.now }
    {
        let first = seat_unless(own, 1, &self.first, id);
        seat_with_unless(own, first, id, self.others.as_slice())
    }

    // ---- the parts of a line

    /// Does a line of the script, or a part of it with more behind it, and tells what it did behind
    /// what was told.
    pub fn do_part(
        &mut self,
        number: u64,
        line: &LaneLine,
        ends: bool,
        told: &mut LaneHappened,
    ) -> Result<(), Memory>
        requires numbered { number ≡ lines_of (lanes_of self.old) + 1 }
        requires few { number ≤ 1000000 }
        requires within { IsLaneWithin line.now }
        requires kept { AreKept self.old }
        ensures step { OnOk result
            (GoesOn number line.now (lanes_of self.old) (lanes_of self.new) told.old told.new) }
        ensures numbers { OnOk result
            (lines_of (lanes_of self.new) ≡ count_behind ends (lines_of (lanes_of self.old))) }
        ensures kept { OnOk result (AreKept self.new) }
    {
        self.do_form(number, line, told)?;
        self.count(number, ends);
        Ok(())
    }

    fn do_form(
        &mut self,
        number: u64,
        line: &LaneLine,
        told: &mut LaneHappened,
    ) -> Result<(), Memory>
        requires few { number ≤ 1000000 }
        requires within { IsLaneWithin line.now }
        requires kept { AreKept self.old }
        ensures step { OnOk result
            (TellsDone (LanesDo number line.now) self.old self.new told.old told.new) }
        ensures numbers { OnOk result
            (lines_of (lanes_of self.new) ≡ lines_of (lanes_of self.old)) }
        ensures kept { OnOk result (AreKept self.new) }
    {
        match line {
            LaneLine::On { lane, line } => self.do_request(number, *lane, line, told),
            LaneLine::Lanes { count } => self.set_lanes(*count, told),
            LaneLine::Shift {
                machine,
                from,
                to,
                id,
            } => self.shift(number, *machine, *from, *to, *id, told),
        }
    }

    /// The line is counted on each lane.
    fn count(&mut self, number: u64, ends: bool)
        requires numbered { number ≡ lines_of (lanes_of self.old) + 1 }
        requires few { number ≤ 1000000 }
        requires kept { AreKept self.old }
        ensures counted { lanes_of self.new
            ≡ counted (count_behind ends (lines_of (lanes_of self.old))) (lanes_of self.old) }
        ensures numbers { lines_of (lanes_of self.new)
            ≡ count_behind ends (lines_of (lanes_of self.old)) }
        ensures kept { AreKept self.new }
    {
        if !ends {
            return;
        }
        self.first.state.set_lines(number);
        count_all(self.others.as_mut_slice(), number);
    }

    /// `Memory` where the lanes together count more boards or handovers than can be told.
    pub fn check_counts(&self) -> Result<(), Memory>
        ensures { OnOk result (is_counted (lanes_of self.now) ≡ true) }
    {
        match self.sum() {
            Some(_sum) => Ok(()),
            None => Err(Memory),
        }
    }

    fn do_request(
        &mut self,
        number: u64,
        lane: u32,
        line: &ScriptLine,
        told: &mut LaneHappened,
    ) -> Result<(), Memory>
        requires few { number ≤ 1000000 }
        requires within { IsWithin line.now }
        requires kept { AreKept self.old }
        ensures step { OnOk result
            (TellsDone (RequestDoes number lane (request_of line.now)) self.old self.new told.old
            told.new) }
        ensures numbers { OnOk result
            (lines_of (lanes_of self.new) ≡ lines_of (lanes_of self.old)) }
        ensures kept { OnOk result (AreKept self.new) }
    {
        match line {
            ScriptLine::Blank => Ok(()),
            ScriptLine::Show => self.show(told),
            ScriptLine::Machine { capacity, used } => {
                self.add_machine(false, *capacity, *used, told)
            }
            ScriptLine::Bridge { capacity, used } => self.add_machine(true, *capacity, *used, told),
            ScriptLine::Stop { machine } => self.tell_stop(*machine, told),
            _ => self.do_on_lane(number, lane, line, told),
        }
    }

    // ---- a line of one lane

    /// What it names is there, and so is the lane: `NoSuchMachine`, `NoGap`, `NoLane`.
    fn may_on(&self, lane: u32, line: &ScriptLine) -> Result<(), Reason>
        requires own { is_of_lane line.now ≡ true }
        requires within { IsWithin line.now }
        ensures { result ≡ may_on lane (request_of line.now) (lanes_of self.now) }
    {
        match may_name(&self.first.state, line) {
            Ok(()) => self.may_use(lane),
            Err(reason) => Err(reason),
        }
    }

    fn may_use(&self, lane: u32) -> Result<(), Reason>
        ensures { result ≡ no_if (not (has_lane lane (lanes_of self.now))) (reasons.Node nos.NoLane) may_do }
    {
        match self.track(lane) {
            Some(_track) => Ok(()),
            None => Err(Reason::Node(No::NoLane)),
        }
    }

    fn do_on_lane(
        &mut self,
        number: u64,
        lane: u32,
        line: &ScriptLine,
        told: &mut LaneHappened,
    ) -> Result<(), Memory>
        requires own { is_of_lane line.now ≡ true }
        requires few { number ≤ 1000000 }
        requires within { IsWithin line.now }
        requires kept { AreKept self.old }
        ensures step { OnOk result
            (TellsDone (RequestDoes number lane (request_of line.now)) self.old self.new told.old
            told.new) }
        ensures numbers { OnOk result
            (lines_of (lanes_of self.new) ≡ lines_of (lanes_of self.old)) }
        ensures kept { OnOk result (AreKept self.new) }
    {
        match self.may_on(lane, line) {
            Ok(()) => self.do_allowed(number, lane, line, told),
            Err(reason) => told.tell(1, Happening::No(reason)),
        }
    }

    /// Does a line of one lane, where what it names is there, and so is the lane.
    fn do_allowed(
        &mut self,
        number: u64,
        lane: u32,
        line: &ScriptLine,
        told: &mut LaneHappened,
    ) -> Result<(), Memory>
        requires own { is_of_lane line.now ≡ true }
        requires few { number ≤ 1000000 }
        requires within { IsWithin line.now }
        requires kept { AreKept self.old }
        requires may { may_on lane (request_of line.now) (lanes_of self.old) ≡ may_do }
        ensures step { OnOk result
            (TellsDone (RequestDoes number lane (request_of line.now)) self.old self.new told.old
            told.new) }
        ensures numbers { OnOk result
            (lines_of (lanes_of self.new) ≡ lines_of (lanes_of self.old)) }
        ensures kept { OnOk result (AreKept self.new) }
    {
        let done = self.do_line(number, lane, line)?;
        let span = stepped(line);
        self.share_changed(lane, span);
        self.tell_done(lane, span, done, told)
    }

    fn do_line(&mut self, number: u64, lane: u32, line: &ScriptLine) -> Result<Happened, Memory>
        requires own { is_of_lane line.now ≡ true }
        requires few { number ≤ 1000000 }
        requires ready { IsReady lane self.old }
        ensures { IfOk result
            (λ told. StepsOn lane
            (λ (before after : LineState). LineDoes number (request_of line.now) before after told)
            self.old self.new) }
    {
        if lane == 1 {
            return self.first.state.do_line(number, line);
        }
        self.others[lane as usize - 2].state.do_line(number, line)
    }

    /// Tells what was done on a lane, and the standings that it changed; the lane's index follows.
    fn tell_done(
        &mut self,
        lane: u32,
        span: Span,
        done: Happened,
        told: &mut LaneHappened,
    ) -> Result<(), Memory>
        requires early { span.first ≤ 64 }
        requires few { length self.old ≤ 4 }
        requires ready { IsReady lane self.old }
        ensures { OnOk result
            (FollowsDone lane span.first span.last done self.old self.new told.old told.new) }
    {
        let ids = ids_named(self.alloc, done.list())?;
        told.tell_all(lane, done)?;
        for id in &ids {
            let beside = self.seat_beside(lane, *id);
            let moved = self.follow(lane, span, *id)?;
            let was = both(moved.was, beside);
            let now = both(moved.now, beside);
            tell_seat(*id, was, now, told)?;
        }
        Ok(())
    }

    pub(crate) fn follow(&mut self, lane: u32, span: Span, id: BoardId) -> Result<Moved, Memory>
        requires early { span.first ≤ 64 }
        requires ready { IsReady lane self.old }
        ensures { IfOk result (FollowsOne lane span.first span.last id self.old self.new) }
    {
        if lane == 1 {
            return self.first.follow(lane, span, id);
        }
        self.others[lane as usize - 2].follow(lane, span, id)
    }

    // ---- lines of all lanes

    /// One machine more on each lane, which is a bridge or none.
    fn add_machine(
        &mut self,
        is_bridge: bool,
        capacity: u32,
        used: u64,
        told: &mut LaneHappened,
    ) -> Result<(), Memory>
        requires least { 1 ≤ capacity }
        requires most { capacity ≤ 1024 }
        requires used { used < 2 ^ 48 }
        requires kept { AreKept self.old }
        ensures step { (number lane : ℕ) → OnOk result
            (TellsDone (RequestDoes number lane (adds 1 is_bridge capacity used)) self.old self.new
            told.old told.new) }
        ensures numbers { OnOk result
            (lines_of (lanes_of self.new) ≡ lines_of (lanes_of self.old)) }
        ensures kept { OnOk result (AreKept self.new) }
    {
        if let Err(reason) = self.first.state.may_add() {
            return told.tell(1, Happening::No(reason));
        }
        let number = self.first.state.machines().len() as u32 + 1;
        self.first.state.add_machine(1, is_bridge, capacity, used)?;
        add_to_all(self.others.as_mut_slice(), is_bridge, capacity, used)?;
        told.tell(1, made(is_bridge, number, capacity))
    }

    /// What a stop tells itself: what it does are lines of their own.
    fn tell_stop(&self, machine: u32, told: &mut LaneHappened) -> Result<(), Memory>
        ensures { (number lane : ℕ) → OnOk result
            (TellsDone (RequestDoes number lane (stops machine)) self.now self.now told.old told.new) }
    {
        if let Err(reason) = self.first.state.may_stop(machine) {
            return told.tell(1, Happening::No(reason));
        }
        told.tell(1, Happening::Stop { machine })
    }

    /// The line has so many lanes from now on, where no machine stands.
    #[tactic(auto, using(crate::proofs::Setting::lanes_set, crate::proofs::Setting::set_kept, crate::proofs::Setting::set_refused))]
    fn set_lanes(&mut self, count: u32, told: &mut LaneHappened) -> Result<(), Memory>
        requires within { IsBetween 1 4 count }
        requires kept { AreKept self.old }
        ensures step { (number : ℕ) → OnOk result
            (TellsDone (LanesDo number (lane_lines.Lanes count)) self.old self.new told.old told.new) }
        ensures numbers { OnOk result
            (lines_of (lanes_of self.new) ≡ lines_of (lanes_of self.old)) }
        ensures kept { OnOk result (AreKept self.new) }
    {
        if !self.first.state.machines().is_empty() {
            return told.tell(1, Happening::No(Reason::MachinesStand));
        }
        let lines = self.first.state.lines();
        let unvouched = self.first.state.unvouched();
        let others = empty_tracks(self.alloc, count - 1, lines, unvouched)?;
        self.first = empty_track(self.alloc, lines, unvouched);
        self.others = others;
        told.tell(1, Happening::Lanes { count })
    }

    /// What each machine keeps, machine by machine and in each lane by lane, and the boards in
    /// handovers.
    fn show(&self, told: &mut LaneHappened) -> Result<(), Memory>
        requires { AreKept self.now }
        ensures { OnOk result (told.new ≡ told.old ++ shown_on (lanes_of self.now)) }
    {
        let count = self.first.state.machines().len() as u32;
        for before in 0..count {
            self.show_machine(before, told)?;
        }
        Ok(())
    }

    fn show_machine(&self, before: u32, told: &mut LaneHappened) -> Result<(), Memory>
        requires few { length self.now ≤ 4 }
        requires early { before < 64 }
        ensures { OnOk result
            (told.new
            ≡ told.old
            ++ fronts_shown 1 (before + 1)
            (map (λ (t : LineState). drop before t.machines) (states_of self.now))) }
    {
        show_front(1, self.first.state.machines(), before, told)?;
        show_others(self.others.as_slice(), before, told)
    }

    // ---- views

    /// The numbers of the report's last line; `None` where one of them is past what is counted.
    #[tactic(auto, using(crate::proofs::Summing::summed_all, crate::proofs::Summing::told_before, crate::proofs::Summing::told_all))]
    pub fn sum(&self) -> Option<Summary>
        ensures sum { IfSome result (λ sum. sum ≡ summary_on (lanes_of self.now)) }
        ensures there { is_some result ≡ is_counted (lanes_of self.now) }
    {
        let mut sum = self.first.state.summary();
        for track in &self.others {
            match added(sum, track.state.summary()) {
                Some(more) => sum = more,
                None => return None,
            }
        }
        Some(sum)
    }
}

/// The counts of two lanes together; `None` where one of them is past what is counted.
#[tactic(auto, using(crate::proofs::Summing::told_all, crate::proofs::Summing::told_boards, crate::proofs::Summing::told_opened, crate::proofs::Summing::told_settled))]
fn added(one: Summary, other: Summary) -> Option<Summary>
    ensures { SomeIff result (is_told (added_up one other) ≡ true) (added_up one other) }
{
    let boards = one.boards.checked_add(other.boards)?;
    let opened = one.opened.checked_add(other.opened)?;
    let settled = one.settled.checked_add(other.settled)?;
    Some(Summary {
        lines: one.lines,
        boards,
        opened,
        settled,
        unvouched: one.unvouched,
    })
}

/// Where a board stands, by what was found on the first lane, and what the indexes of the others
/// have.
fn seat_with(first: Seat, id: BoardId, others: &[Track]) -> Seat
    requires { length others.now ≤ 3 }
    ensures { result ≡ both first (seat_listed id 2 others.now) }
{
    let mut seat = first;
    let mut lane = 1;
    for track in others {
        lane += 1;
        seat = both(seat, own_seat(lane, track.index.marks(id)));
    }
    seat
}

/// The same, of all but one of the others.
fn seat_with_unless(own: u32, first: Seat, id: BoardId, others: &[Track]) -> Seat
    requires { length others.now ≤ 3 }
    ensures { result ≡ both first (seat_on_others own id 2 others.now) }
{
    let mut seat = first;
    let mut lane = 1;
    for track in others {
        lane += 1;
        seat = both(seat, seat_unless(own, lane, track, id));
    }
    seat
}

/// What the machine behind so many others keeps on the lanes from the second one on.
fn show_others(tracks: &[Track], before: u32, told: &mut LaneHappened) -> Result<(), Memory>
    requires few { length tracks.now ≤ 3 }
    requires early { before < 64 }
    ensures { OnOk result
        (told.new
        ≡ told.old
        ++ fronts_shown 2 (before + 1)
        (map (λ (t : LineState). drop before t.machines) (states_of tracks.now))) }
{
    let mut lane = 1;
    for track in tracks {
        lane += 1;
        show_front(lane, track.state.machines(), before, told)?;
    }
    Ok(())
}

/// What the index of a lane has of a board, unless it is this lane.
fn seat_unless(own: u32, lane: u32, track: &Track, id: BoardId) -> Seat
    ensures { result
        ≡ (if lane == own then Nowhere else own_seat lane (marks_listed track.now.index id)) }
{
    if lane == own {
        return Seat::Nowhere;
    }
    own_seat(lane, track.index.marks(id))
}

/// A lane without a machine, of which so much was done.
fn empty_track(alloc: Global, lines: u64, unvouched: Option<u64>) -> Track
    ensures { result ≡ empty_track lines unvouched }
{
    Track {
        state: State::empty(alloc, lines, unvouched),
        index: Index::new(alloc),
    }
}

/// So many of them.
#[tactic(auto, using(crate::proofs::Setting::one_empty))]
fn empty_tracks(
    alloc: Global,
    count: u32,
    lines: u64,
    unvouched: Option<u64>,
) -> Result<Vec<Track>, Memory>
    ensures { IfOk result (λ tracks. tracks.items ≡ empty_tracks count lines unvouched) }
{
    let mut tracks = Vec::new(alloc);
    for before in 0..count {
        tracks.push(empty_track(alloc, lines, unvouched))?;
    }
    Ok(tracks)
}

/// A machine, or a bridge, was added.
fn made(is_bridge: bool, number: u32, capacity: u32) -> Happening
    ensures { result ≡ made_told is_bridge number capacity }
{
    if is_bridge {
        return Happening::Bridge { number, capacity };
    }
    Happening::Machine { number, capacity }
}

/// So many lines were done on each lane.
fn count_all(tracks: &mut [Track], lines: u64)
    ensures { tracks.new ≡ map (counted_track lines) tracks.old }
{
    for track in tracks.iter_mut() {
        track.state.set_lines(lines);
    }
}

/// One machine more on each lane from the second one on.
fn add_to_all(tracks: &mut [Track], is_bridge: bool, capacity: u32, used: u64) -> Result<(), Memory>
    requires least { 1 ≤ capacity }
    requires most { capacity ≤ 1024 }
    requires used { used < 2 ^ 48 }
    requires few { length tracks.old ≤ 3 }
    requires room { AllByRecursion HasRoom tracks.old }
    ensures { OnOk result (tracks.new ≡ grown 2 is_bridge capacity used tracks.old) }
{
    let mut lane = 1;
    for track in tracks.iter_mut() {
        lane += 1;
        track.state.add_machine(lane, is_bridge, capacity, used)?;
    }
    Ok(())
}
