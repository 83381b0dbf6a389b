//! A board goes to another lane of its machine.

ghost use Rattle.std.specs.Prelude.{◌≡◌, ◌≢◌, ◌≤◌, ◌<◌, ◌-◌, IfOk, OnOk, length};
ghost use Rattle.law_lanes.specs.Lanes.{lines_of};
ghost use Rattle.law_lanes.specs.Reasons.{may_shift};
ghost use Rattle.law_lanes.specs.Steps.{LanesDo};
ghost use Rattle.line_script.specs.Ranges.{IsBetween};
ghost use Rattle.line_script.specs.declared.line.LaneLine.TheVariants as lane_lines;
ghost use Rattle.line_step.specs.Reasons.{may_do, may_give_away, may_take_in};
ghost use Rattle.line_engine.specs.Tracks.{AreKept, FollowsBoth, GivesOn, IsReady, MayOn, TakesOn, TellsDone, lanes_of};

use crate::seat::tell_seat;
use crate::tracks::Tracks;
use board_record::BoardId;
use line_base::Memory;
use line_machines::Gave;
use line_marks::{Span, ids_of_both};
use line_report::{Happened, Happening, LaneHappened, Reason, tell_shift};
use node_core::{No, Passage};

impl Tracks {
    /// `NoSuchMachine`, `NoLane`, `Bridge`, `Same`, `NotKept`, `NotHere`, `WasOffered`,
    /// `IntakeOpen`, `Full`.
    fn may_shift(&self, machine: u32, from: u32, to: u32, id: BoardId) -> Result<(), Reason>
        requires { AreKept self.now }
        ensures { result ≡ may_shift machine from to id (lanes_of self.now) }
    {
        if let Err(reason) = self.first.state.may_find(machine) {
            return Err(reason);
        }
        let Some(giver) = self.track(from) else {
            return Err(Reason::Node(No::NoLane));
        };
        let Some(taker) = self.track(to) else {
            return Err(Reason::Node(No::NoLane));
        };
        if self.first.state.is_bridge(machine) {
            return Err(Reason::Node(No::Bridge));
        }
        if from == to {
            return Err(Reason::Node(No::Same));
        }
        match giver.state.may_give_away(machine, id) {
            Ok(()) => taker.state.may_take_in(machine),
            Err(reason) => Err(reason),
        }
    }

    pub(crate) fn shift(
        &mut self,
        number: u64,
        machine: u32,
        from: u32,
        to: u32,
        id: BoardId,
        told: &mut LaneHappened,
    ) -> Result<(), Memory>
        requires few { number ≤ 1000000 }
        requires within { IsBetween 1 64 machine }
        requires kept { AreKept self.old }
        ensures step { OnOk result
            (TellsDone (LanesDo number (lane_lines.Shift machine from to id)) self.old self.new
            told.old told.new) }
        ensures numbers { OnOk result
            (lines_of (lanes_of self.new) ≡ lines_of (lanes_of self.old)) }
        ensures kept { OnOk result (AreKept self.new) }
    {
        match self.may_shift(machine, from, to, id) {
            Ok(()) => self.do_shift(number, machine, from, to, id, told),
            Err(reason) => told.tell(1, Happening::No(reason)),
        }
    }

    /// Does a shift against which nothing stands.
    fn do_shift(
        &mut self,
        number: u64,
        machine: u32,
        from: u32,
        to: u32,
        id: BoardId,
        told: &mut LaneHappened,
    ) -> Result<(), Memory>
        requires few { number ≤ 1000000 }
        requires within { IsBetween 1 64 machine }
        requires kept { AreKept self.old }
        requires may { may_shift machine from to id (lanes_of self.old) ≡ may_do }
        ensures step { OnOk result
            (TellsDone (LanesDo number (lane_lines.Shift machine from to id)) self.old self.new
            told.old told.new) }
        ensures numbers { OnOk result
            (lines_of (lanes_of self.new) ≡ lines_of (lanes_of self.old)) }
        ensures kept { OnOk result (AreKept self.new) }
    {
        let gave = self.give_away(number, machine, from, id, to)?;
        let span = Span::one(machine);
        self.share(from, span);
        let got = self.take_in(number, machine, to, gave.board)?;
        self.share(to, span);
        self.tell_shifted(machine, from, to, gave.told, got, told)
    }

    fn give_away(
        &mut self,
        number: u64,
        machine: u32,
        from: u32,
        id: BoardId,
        to: u32,
    ) -> Result<Gave, Memory>
        requires few { number ≤ 1000000 }
        requires may { MayOn from (may_give_away machine id) self.old }
        ensures { IfOk result
            (λ gave. GivesOn number machine from id to self.old self.new gave.told gave.board) }
    {
        if from == 1 {
            return self.first.state.give_away(number, machine, id, to);
        }
        self.others[from as usize - 2]
            .state
            .give_away(number, machine, id, to)
    }

    fn take_in(
        &mut self,
        number: u64,
        machine: u32,
        to: u32,
        board: Passage,
    ) -> Result<Happened, Memory>
        requires few { number ≤ 1000000 }
        requires may { MayOn to (may_take_in machine) self.old }
        ensures { IfOk result (TakesOn number machine to board self.old self.new) }
    {
        if to == 1 {
            return self.first.state.take_in(number, machine, board);
        }
        self.others[to as usize - 2]
            .state
            .take_in(number, machine, board)
    }

    /// Tells a shift, and the standings that it changed; the indexes of both lanes follow.
    fn tell_shifted(
        &mut self,
        machine: u32,
        from: u32,
        to: u32,
        given: Happened,
        got: Happened,
        told: &mut LaneHappened,
    ) -> Result<(), Memory>
        requires early { machine ≤ 64 }
        requires apart { from ≢ to }
        requires few { length self.old ≤ 4 }
        requires from { IsReady from self.old }
        requires to { IsReady to self.old }
        ensures { OnOk result
            (FollowsBoth machine from to given got self.old self.new told.old told.new) }
    {
        let ids = ids_of_both(self.alloc, given.list(), got.list())?;
        tell_shift(from, given, to, got, told)?;
        for id in &ids {
            let was = self.seat(*id);
            let _given = self.follow(from, Span::one(machine), *id)?;
            let _got = self.follow(to, Span::one(machine), *id)?;
            tell_seat(*id, was, self.seat(*id), told)?;
        }
        Ok(())
    }
}
