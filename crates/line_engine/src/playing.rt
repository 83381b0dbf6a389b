//! The parts of a line of the script, one behind the other: a stop does several lines.

ghost use Rattle.std.specs.Prelude.{◌≡◌, ◌≤◌, ◌+◌, [], IfOk, None, OnOk, length, true};
ghost use Rattle.law_lanes.specs.Lanes.{lines_of};
ghost use Rattle.law_lanes.specs.Parts.{LaneLineSteps, cut_where, notice_where, stop_parts, stops_on};
ghost use Rattle.line_script.specs.Ranges.{IsBetween, IsLaneWithin};
ghost use Rattle.line_script.specs.declared.line.LaneLine.TheVariants as lane_lines;
ghost use Rattle.line_script.specs.declared.line.ScriptLine.TheVariants as lines;
ghost use Rattle.line_step.specs.Parts.{count_behind};
ghost use Rattle.line_engine.specs.Each.{GoesOn, Plays, stopped};
ghost use Rattle.line_engine.specs.Kept.{is_counted};
ghost use Rattle.line_engine.specs.Tracks.{AreKept, lanes_of};

use crate::tracks::Tracks;
use line_base::{Memory, Side};
use line_report::LaneHappened;
use line_script::{LaneLine, ScriptLine};

/// The machine that a line stops, if it does.
fn stopped(line: &LaneLine) -> Option<u32>
    ensures { result ≡ stopped line.now }
{
    match line {
        LaneLine::On {
            line: ScriptLine::Stop { machine },
            ..
        } => Some(*machine),
        _ => None,
    }
}

impl Tracks {
    /// Does the parts of a line of the script, and answers what happened. `Memory` where there is
    /// none for what happened, for records and texts, and where the lanes together count more
    /// boards or handovers than can be told.
    pub fn play(&mut self, number: u64, line: &LaneLine) -> Result<LaneHappened, Memory>
        requires numbered { number ≡ lines_of (lanes_of self.old) + 1 }
        requires few { number ≤ 1000000 }
        requires within { IsLaneWithin line.now }
        requires kept { AreKept self.old }
        ensures step { IfOk result
            (LaneLineSteps line.now (lanes_of self.old) (lanes_of self.new)) }
        ensures kept { IfOk result (λ told. AreKept self.new) }
        ensures sums { IfOk result (λ told. is_counted (lanes_of self.new) ≡ true) }
    {
        match stopped(line) {
            Some(machine) => self.play_stop(number, machine),
            None => self.play_whole(number, line),
        }
    }

    /// Does a stop of this machine.
    fn play_stop(&mut self, number: u64, machine: u32) -> Result<LaneHappened, Memory>
        requires numbered { number ≡ lines_of (lanes_of self.old) + 1 }
        requires few { number ≤ 1000000 }
        requires machine { IsBetween 1 64 machine }
        requires kept { AreKept self.old }
        ensures step { IfOk result
            (Plays (stop_parts (length self.old) machine) (lanes_of self.old) (lanes_of self.new) []) }
        ensures kept { IfOk result (λ told. AreKept self.new) }
        ensures sums { IfOk result (λ told. is_counted (lanes_of self.new) ≡ true) }
    {
        let mut told = LaneHappened::new(self.alloc());
        self.stop(number, machine, &mut told)?;
        self.check_counts()?;
        Ok(told)
    }

    /// Does a line that is its own part.
    fn play_whole(&mut self, number: u64, line: &LaneLine) -> Result<LaneHappened, Memory>
        requires numbered { number ≡ lines_of (lanes_of self.old) + 1 }
        requires few { number ≤ 1000000 }
        requires within { IsLaneWithin line.now }
        requires whole { stopped line.now ≡ None }
        requires kept { AreKept self.old }
        ensures step { IfOk result
            (LaneLineSteps line.now (lanes_of self.old) (lanes_of self.new)) }
        ensures kept { IfOk result (λ told. AreKept self.new) }
        ensures sums { IfOk result (λ told. is_counted (lanes_of self.new) ≡ true) }
    {
        let mut told = LaneHappened::new(self.alloc());
        self.do_part(number, line, true, &mut told)?;
        self.check_counts()?;
        Ok(told)
    }

    /// Does a stop: what it tells itself, and then each line that it does, where no reason stands
    /// against it, lane by lane.
    fn stop(&mut self, number: u64, machine: u32, told: &mut LaneHappened) -> Result<(), Memory>
        requires numbered { number ≡ lines_of (lanes_of self.old) + 1 }
        requires few { number ≤ 1000000 }
        requires kept { AreKept self.old }
        requires machine { IsBetween 1 64 machine }
        ensures kept { OnOk result (AreKept self.new) }
        ensures step { OnOk result
            (Plays (stop_parts (length self.old) machine) (lanes_of self.old) (lanes_of self.new) told.old told.new) }
    {
        let lanes = self.lanes();
        self.begin_stop(number, machine, told)?;
        for lane in 1..lanes {
            self.stop_on(number, lane, machine, false, told)?;
        }
        self.stop_on(number, lanes, machine, true, told)
    }

    /// What a stop tells itself.
    fn begin_stop(
        &mut self,
        number: u64,
        machine: u32,
        told: &mut LaneHappened,
    ) -> Result<(), Memory>
        requires numbered { number ≡ lines_of (lanes_of self.old) + 1 }
        requires few { number ≤ 1000000 }
        requires kept { AreKept self.old }
        requires machine { IsBetween 1 64 machine }
        ensures kept { OnOk result (AreKept self.new) }
        ensures counted { OnOk result (lines_of (lanes_of self.new) ≡ lines_of (lanes_of self.old)) }
        ensures step { OnOk result
            (GoesOn number (lane_lines.On 1 (lines.Stop machine)) (lanes_of self.old) (lanes_of self.new) told.old
            told.new) }
    {
        let line = LaneLine::On {
            lane: 1,
            line: ScriptLine::Stop { machine },
        };
        self.do_part(number, &line, false, told)
    }

    /// Does it on one lane, with which the line of the script ends, or behind which more follows.
    fn stop_on(
        &mut self,
        number: u64,
        lane: u32,
        machine: u32,
        ends: bool,
        told: &mut LaneHappened,
    ) -> Result<(), Memory>
        requires numbered { number ≡ lines_of (lanes_of self.old) + 1 }
        requires few { number ≤ 1000000 }
        requires kept { AreKept self.old }
        requires lane { IsBetween 1 4 lane }
        requires machine { IsBetween 1 64 machine }
        ensures kept { OnOk result (AreKept self.new) }
        ensures counted { OnOk result (lines_of (lanes_of self.new) ≡ count_behind ends (lines_of (lanes_of self.old))) }
        ensures step { OnOk result
            (Plays (stops_on lane machine ends) (lanes_of self.old) (lanes_of self.new) told.old told.new) }
    {
        self.cut_in_turn(number, lane, machine - 1, told)?;
        self.cut_in_turn(number, lane, machine, told)?;
        self.notice_in_turn(number, lane, machine, Side::Entry, false, told)?;
        self.notice_in_turn(number, lane, machine, Side::Exit, ends, told)
    }

    /// Cuts this gap, where no reason stands against it, and tells of it behind what was told.
    fn cut_in_turn(
        &mut self,
        number: u64,
        lane: u32,
        gap: u32,
        told: &mut LaneHappened,
    ) -> Result<(), Memory>
        requires numbered { number ≡ lines_of (lanes_of self.old) + 1 }
        requires few { number ≤ 1000000 }
        requires kept { AreKept self.old }
        requires lane { IsBetween 1 4 lane }
        requires gap { gap ≤ 64 }
        ensures kept { OnOk result (AreKept self.new) }
        ensures counted { OnOk result (lines_of (lanes_of self.new) ≡ lines_of (lanes_of self.old)) }
        ensures step { OnOk result
            (GoesOn number (cut_where lane gap (lanes_of self.old)) (lanes_of self.old) (lanes_of self.new) told.old told.new) }
    {
        let line = self.cut_where(lane, gap);
        self.do_part(number, &line, false, told)
    }

    /// This side notices, where no reason stands against it, and that is told behind what was told.
    fn notice_in_turn(
        &mut self,
        number: u64,
        lane: u32,
        machine: u32,
        side: Side,
        ends: bool,
        told: &mut LaneHappened,
    ) -> Result<(), Memory>
        requires numbered { number ≡ lines_of (lanes_of self.old) + 1 }
        requires few { number ≤ 1000000 }
        requires kept { AreKept self.old }
        requires lane { IsBetween 1 4 lane }
        requires machine { IsBetween 1 64 machine }
        ensures kept { OnOk result (AreKept self.new) }
        ensures counted { OnOk result (lines_of (lanes_of self.new) ≡ count_behind ends (lines_of (lanes_of self.old))) }
        ensures step { OnOk result
            (GoesOn number (notice_where lane machine side (lanes_of self.old)) (lanes_of self.old) (lanes_of self.new) told.old
            told.new) }
    {
        let line = self.notice_where(lane, machine, side);
        self.do_part(number, &line, ends, told)
    }

    /// A cut of this gap, where no reason stands against it.
    fn cut_where(&self, lane: u32, gap: u32) -> LaneLine
        requires kept { AreKept self.now }
        requires lane { IsBetween 1 4 lane }
        ensures line { result ≡ cut_where lane gap (lanes_of self.now) }
        ensures within { IsLaneWithin result }
    {
        match self.track(lane) {
            Some(track) => LaneLine::On {
                lane,
                line: track.state.cut_where(gap),
            },
            None => LaneLine::On {
                lane,
                line: ScriptLine::Blank,
            },
        }
    }

    /// A notice of this side, where no reason stands against it.
    fn notice_where(&self, lane: u32, machine: u32, side: Side) -> LaneLine
        requires lane { IsBetween 1 4 lane }
        requires machine { IsBetween 1 64 machine }
        ensures line { result ≡ notice_where lane machine side (lanes_of self.now) }
        ensures within { IsLaneWithin result }
    {
        match self.track(lane) {
            Some(track) => LaneLine::On {
                lane,
                line: track.state.notice_where(machine, side),
            },
            None => LaneLine::On {
                lane,
                line: ScriptLine::Blank,
            },
        }
    }
}
