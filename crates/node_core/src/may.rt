ghost use Rattle.board_record.specs.SubBoards.{unknown_sub};
ghost use Rattle.std.specs.Prelude.{◌≡◌, not};
ghost use Rattle.smema_bridge.specs.Segment.{level_of};
ghost use Rattle.node_core.specs.May.{is_handing_over, is_used_up, may_of, may_connect, may_accept, may_reach, may_reach_any, may_fault, may_will, may_level, may_insert, may_remove, may_replace, may_mark, may_sub, may_forecast, may_query, may_supervise, may_ask, may_answer, may_give, may_get};

use crate::input::{Input, No};
use crate::lane::Body;
use crate::node::Node;
use board_record::BoardId;
use handover_in::InPhase;
use handover_out::OutPhase;
use line_base::{Side, Text};
use smema_bridge::{Bridge, SegmentLine};
use supervisory_core::AnswerError;

/// How many ids a machine can make.
const MOST_IDS: u64 = 0xFFFF_FFFF_FFFF;

/// The level of a signal of a bridge's segment.
fn level_of(bridge: Bridge, line: SegmentLine) -> bool
    ensures { result ≡ level_of line bridge.segment }
{
    match line {
        SegmentLine::Ready => bridge.wants_in(),
        SegmentLine::Available => bridge.wants_out(),
        SegmentLine::Failed => bridge.failed(),
    }
}

fn may_level(bridge: Option<Bridge>, line: SegmentLine, on: bool) -> Result<(), No>
    ensures { result ≡ may_level line on bridge }
{
    match bridge {
        Some(bridge) => {
            if level_of(bridge, line) == on {
                return Err(No::Same);
            }
            Ok(())
        }
        None => Err(No::NotABridge),
    }
}

impl Body {
    /// Whether a board is moving at a side.
    fn is_handing_over(&self, side: Side) -> bool
        ensures { result ≡ is_handing_over side self.now }
    {
        match side {
            Side::Entry => self.intake.phase() == InPhase::Taking,
            Side::Exit => self.outlet.phase() == OutPhase::Moving,
        }
    }

    fn may_connect(&self) -> Result<(), No>
        ensures { result ≡ may_connect self.now }
    {
        if self.is_open(Side::Entry) {
            return Err(No::Connected);
        }
        if !self.intake.may_connect() {
            return Err(No::IntakeUnsettled);
        }
        Ok(())
    }

    fn may_accept(&self) -> Result<(), No>
        ensures { result ≡ may_accept self.now }
    {
        if self.is_open(Side::Exit) {
            return Err(No::Connected);
        }
        Ok(())
    }

    fn may_reach(&self, side: Side) -> Result<(), No>
        ensures { result ≡ may_reach side self.now }
    {
        if !self.is_open(side) {
            return Err(No::NotConnected);
        }
        Ok(())
    }

    fn may_reach_any(&self) -> Result<(), No>
        ensures { result ≡ may_reach_any self.now }
    {
        if !self.is_open(Side::Entry) && !self.is_open(Side::Exit) {
            return Err(No::NotConnected);
        }
        Ok(())
    }

    fn may_fault(&self, side: Side) -> Result<(), No>
        ensures { result ≡ may_fault side self.now }
    {
        if !self.is_handing_over(side) {
            return Err(No::NoHandover);
        }
        Ok(())
    }

    fn may_remove(&self, id: BoardId) -> Result<(), No>
        ensures { result ≡ may_remove id self.now }
    {
        if !self.keeps(id) {
            return Err(No::NotKept);
        }
        Ok(())
    }

    fn may_mark(&self, id: BoardId) -> Result<(), No>
        ensures { result ≡ may_mark id self.now }
    {
        if !self.keeps(id) {
            return Err(No::NotKept);
        }
        if self.outlet.touched() == Some(id) {
            return Err(No::Offered);
        }
        Ok(())
    }

    fn may_sub(&self, id: BoardId, pos: u32, barcode: &Option<Text>) -> Result<(), No>
        ensures { result ≡ may_sub id (unknown_sub pos barcode.now) self.now }
    {
        if !self.keeps(id) {
            return Err(No::NotKept);
        }
        let touched = self.outlet.touched();
        if touched == Some(id) {
            return Err(No::Offered);
        }
        if !self.takes_sub(id, pos, barcode) {
            return Err(No::SubsFull);
        }
        Ok(())
    }

    fn may_forecast(&self) -> Result<(), No>
        ensures { result ≡ may_forecast self.now }
    {
        if !self.is_standing(Side::Exit) {
            return Err(No::NotStanding);
        }
        if !self.exit.session.peer().forecast {
            return Err(No::NotSupported);
        }
        if self.kept.list().first().is_none() {
            return Err(No::NothingKept);
        }
        Ok(())
    }

    fn may_query(&self) -> Result<(), No>
        ensures { result ≡ may_query self.now }
    {
        if !self.is_standing(Side::Entry) {
            return Err(No::NotStanding);
        }
        if !self.entry.session.peer().query {
            return Err(No::NotSupported);
        }
        Ok(())
    }
}

impl Node {
    /// Whether an input may be given now: the first reason against it, on the state before the
    /// step.
    ///
    /// `Connect`: `Connected`, `IntakeUnsettled`. `Accepted`: `Connected`. `Second`, `Bytes`,
    /// `Notice`, and `Tick` and `Shutdown` of both sides: `NotConnected`. `Fault`: `NoHandover`.
    /// `Will`: `Bridge`, `Same`. `Level`: `NotABridge`, `Same`. `Insert`: `IntakeOpen`, `Full`,
    /// `IdsUsedUp`. `Remove`: `NotKept`. `Replace`: `NotKept`, `IdsUsedUp`. `Mark`: `NotKept`,
    /// `Offered`. `Forecast`: `NotStanding`, `NotSupported`, `NothingKept`. `Query`:
    /// `NotStanding`, `NotSupported`. `Supervise`: `Same`. `Ask`: `NotSupervised`, `QueriesFull`.
    /// `Answer`: `NotSupervised`, `UnknownQuery`, `Answered` with the number of the query.
    /// `Sub`: `NotKept`, `Offered`, `SubsFull`. `Gives` and `Gets`: `NoLane`, always. It takes no
    /// memory.
    #[inline(always)]
    pub fn may(&self, input: &Input<'_>) -> Result<(), No>
        ensures { result ≡ may_of self.now input.now }
    {
        match input {
            Input::Nothing => Ok(()),
            Input::Connect => self.lane.body.may_connect(),
            Input::Accepted => self.lane.body.may_accept(),
            Input::Second => self.lane.body.may_reach(Side::Exit),
            Input::Bytes(side, _) => self.lane.body.may_reach(*side),
            Input::Notice(side) => self.lane.body.may_reach(*side),
            Input::Tick => self.lane.body.may_reach_any(),
            Input::Shutdown => self.lane.body.may_reach_any(),
            Input::Fault(side) => self.lane.body.may_fault(*side),
            Input::Will(side, on) => self.may_will(*side, *on),
            Input::Level(line, on) => may_level(self.desk.bridge(), *line, *on),
            Input::Insert(_) => self.may_insert(),
            Input::Remove(id) => self.lane.body.may_remove(*id),
            Input::Replace(id) => self.may_replace(*id),
            Input::Mark(id, _) => self.lane.body.may_mark(*id),
            Input::Forecast => self.lane.body.may_forecast(),
            Input::Query(_) => self.lane.body.may_query(),
            Input::Supervise(on) => self.may_supervise(*on),
            Input::Ask(_) => self.may_ask(),
            Input::Answer { query, .. } => self.may_answer(*query),
            Input::Sub { id, pos, barcode } => self.lane.body.may_sub(*id, *pos, barcode),
            Input::Gives { .. } => Err(No::NoLane),
            Input::Gets(_) => Err(No::NoLane),
        }
    }

    /// Whether a board may go to another lane of the machine: the first reason against it, of
    /// `Bridge`, `NotKept`, `WasOffered`.
    pub fn may_give(&self, id: BoardId) -> Result<(), No>
        ensures { result ≡ may_give id self.now }
    {
        if self.desk.bridge().is_some() {
            return Err(No::Bridge);
        }
        if !self.lane.body.keeps(id) {
            return Err(No::NotKept);
        }
        if self.lane.body.last_offer == Some(id) {
            return Err(No::WasOffered);
        }
        Ok(())
    }

    /// Whether a board may come from another lane of the machine: the first reason against it, of
    /// `IntakeOpen`, `Full`.
    pub fn may_get(&self) -> Result<(), No>
        ensures { result ≡ may_get self.now }
    {
        if !self.lane.body.is_intake_free() {
            return Err(No::IntakeOpen);
        }
        if !self.lane.body.has_place(&self.desk) {
            return Err(No::Full);
        }
        Ok(())
    }

    fn has_ids(&self) -> bool
        ensures { result ≡ not (is_used_up self.now.maker.used) }
    {
        self.maker.used() < MOST_IDS
    }

    fn may_will(&self, side: Side, on: bool) -> Result<(), No>
        ensures { result ≡ may_will side on self.now }
    {
        if self.desk.bridge().is_some() {
            return Err(No::Bridge);
        }
        if self.lane.body.is_willing(side) == on {
            return Err(No::Same);
        }
        Ok(())
    }

    fn may_supervise(&self, on: bool) -> Result<(), No>
        ensures { result ≡ may_supervise on self.now }
    {
        if self.desk.supervised() == on {
            return Err(No::Same);
        }
        Ok(())
    }

    fn may_ask(&self) -> Result<(), No>
        ensures { result ≡ may_ask self.now }
    {
        if !self.desk.supervised() {
            return Err(No::NotSupervised);
        }
        if self.orders.is_full() {
            return Err(No::QueriesFull);
        }
        Ok(())
    }

    fn may_answer(&self, query: u64) -> Result<(), No>
        ensures { result ≡ may_answer query self.now }
    {
        if !self.desk.supervised() {
            return Err(No::NotSupervised);
        }
        match self.orders.may_answer(query) {
            Ok(()) => Ok(()),
            Err(AnswerError::Unknown(_)) => Err(No::UnknownQuery),
            Err(AnswerError::Answered(query)) => Err(No::Answered(query)),
        }
    }

    fn may_insert(&self) -> Result<(), No>
        ensures { result ≡ may_insert self.now }
    {
        if !self.lane.body.is_intake_free() {
            return Err(No::IntakeOpen);
        }
        if !self.lane.body.has_place(&self.desk) {
            return Err(No::Full);
        }
        if !self.has_ids() {
            return Err(No::IdsUsedUp);
        }
        Ok(())
    }

    fn may_replace(&self, id: BoardId) -> Result<(), No>
        ensures { result ≡ may_replace id self.now }
    {
        if !self.lane.body.keeps(id) {
            return Err(No::NotKept);
        }
        if !self.has_ids() {
            return Err(No::IdsUsedUp);
        }
        Ok(())
    }
}
