ghost use Rattle.std.specs.Prelude.{◌≡◌, ◌++◌, None, OnOk, slice_get};
ghost use Rattle.handover_out.specs.Given.{IsGiven, breach_of};
ghost use Rattle.handover_out.specs.Row.{last_by};
ghost use Rattle.handover_in.specs.Given.{IsGiven as IsGivenIn, breach_of as in_breach_of};
ghost use Rattle.node_core.specs.Halves.{given_back, settled, at_outlet, at_intake, half_closed};
ghost use Rattle.node_core.specs.Told.{sends, does, out_does, in_does, drives, offers, out_says, out_sends, in_sends, in_says, deed_of_out, deed_of_in, out_told, in_told};

use crate::act::{Act, Deed, Outputs};
use crate::desk::Desk;
use crate::lane::Body;
use board_record::{BoardId, Record};
use handover_in::{InAct, InDeed, InInput, InSend};
use handover_out::{OutAct, OutDeed, OutInput, OutSend};
use hermes_horizontal::{Horizontal, Message, Said};
use line_base::{Memory, Quality, Side};

/// A message of this moment goes out.
pub(crate) fn send(
    desk: &Desk,
    side: Side,
    what: Horizontal,
    to: &mut Outputs,
) -> Result<(), Memory>
    ensures { OnOk result (to.new ≡ to.old ++ sends desk.now side what) }
{
    let body = Said::new(desk.alloc(), what)?;
    to.push(Act::Sends(
        side,
        Message {
            stamp: Some(desk.moment()),
            body,
        },
    ))
}

/// A deed goes out: the one place for it.
fn do_deed(deed: Deed, to: &mut Outputs) -> Result<(), Memory>
    ensures { OnOk result (to.new ≡ to.old ++ does deed) }
{
    to.push(Act::Deed(deed))
}

fn deed_of_out(deed: OutDeed) -> Deed
    ensures { result ≡ deed_of_out deed }
{
    match deed {
        OutDeed::Opens(id) => Deed::Opens(id),
        OutDeed::Refuses(id) => Deed::Refuses(id),
        OutDeed::Leaves(id) => Deed::Leaves(id),
        OutDeed::Returns(id) => Deed::Returns(id),
        OutDeed::Loses(id) => Deed::Loses(id),
    }
}

fn deed_of_in(deed: InDeed) -> Deed
    ensures { result ≡ deed_of_in deed }
{
    match deed {
        InDeed::Starts(id) => Deed::Starts(id),
        InDeed::Settles(id) => Deed::Settles(id),
        InDeed::Drops(id) => Deed::Drops(id),
    }
}

fn tell_out_deed(deed: Option<OutDeed>, to: &mut Outputs) -> Result<(), Memory>
    ensures { OnOk result (to.new ≡ to.old ++ out_does deed) }
{
    match deed {
        Some(deed) => do_deed(deed_of_out(deed), to),
        None => Ok(()),
    }
}

fn tell_in_deed(deed: Option<InDeed>, to: &mut Outputs) -> Result<(), Memory>
    ensures { OnOk result (to.new ≡ to.old ++ in_does deed) }
{
    match deed {
        Some(deed) => do_deed(deed_of_in(deed), to),
        None => Ok(()),
    }
}

fn tell_drive(side: Side, drive: Option<bool>, to: &mut Outputs) -> Result<(), Memory>
    ensures { OnOk result (to.new ≡ to.old ++ drives side drive) }
{
    match drive {
        Some(on) => to.push(Act::Drive(side, on)),
        None => Ok(()),
    }
}

/// The offer of the front record goes out.
fn offer(desk: &Desk, kept: &[Record], to: &mut Outputs) -> Result<(), Memory>
    ensures { OnOk result (to.new ≡ to.old ++ offers desk.now (slice_get kept.now 0)) }
{
    match kept.first() {
        Some(board) => {
            let board = board.copy(desk.alloc())?;
            send(desk, Side::Exit, Horizontal::BoardAvailable(board), to)
        }
        None => Ok(()),
    }
}

fn out_say(desk: &Desk, kept: &[Record], what: OutSend, to: &mut Outputs) -> Result<(), Memory>
    ensures { OnOk result (to.new ≡ to.old ++ out_says desk.now kept.now what) }
{
    match what {
        OutSend::BoardAvailable => offer(desk, kept, to),
        OutSend::RevokeBoardAvailable => {
            send(desk, Side::Exit, Horizontal::RevokeBoardAvailable, to)
        }
        OutSend::Finished { state, id } => {
            send(
                desk,
                Side::Exit,
                Horizontal::TransportFinished { state, id },
                to,
            )
        }
    }
}

fn out_send(
    desk: &Desk,
    kept: &[Record],
    what: Option<OutSend>,
    to: &mut Outputs,
) -> Result<(), Memory>
    ensures { OnOk result (to.new ≡ to.old ++ out_sends desk.now kept.now what) }
{
    match what {
        Some(what) => out_say(desk, kept, what, to),
        None => Ok(()),
    }
}

fn in_says(what: InSend) -> Horizontal
    ensures { result ≡ in_says what }
{
    match what {
        InSend::MachineReady => Horizontal::MachineReady {
            quality: Quality::Unknown,
        },
        InSend::RevokeMachineReady => Horizontal::RevokeMachineReady,
        InSend::Start(id) => Horizontal::StartTransport { id },
        InSend::Stop { state, id } => Horizontal::StopTransport { state, id },
    }
}

#[inline(always)]
fn in_send(desk: &Desk, what: Option<InSend>, to: &mut Outputs) -> Result<(), Memory>
    ensures { OnOk result (to.new ≡ to.old ++ in_sends desk.now what) }
{
    match what {
        Some(what) => send(desk, Side::Entry, in_says(what), to),
        None => Ok(()),
    }
}

/// The board that was offered last, beside what the outlet says.
fn last_by(
    what: Option<OutSend>,
    offered: Option<BoardId>,
    last: Option<BoardId>,
) -> Option<BoardId>
    ensures { result ≡ last_by what offered last }
{
    match what {
        Some(OutSend::BoardAvailable) => offered,
        Some(OutSend::RevokeBoardAvailable) => last,
        Some(OutSend::Finished { .. }) => last,
        None => last,
    }
}

impl Body {
    /// What an act of the outlet tells, and does to the kept records and the last offer.
    #[inline(always)]
    pub(crate) fn follow_out(
        &mut self,
        desk: &Desk,
        act: OutAct,
        to: &mut Outputs,
    ) -> Result<(), Memory>
        ensures body { OnOk result
            (self.new
            ≡ record self.old {
              kept = given_back act.back self.old.kept;
              last_offer = last_by act.send self.old.outlet.offered self.old.last_offer;
            }) }
        ensures acts { OnOk result (to.new ≡ to.old ++ out_told desk.now self.old.kept act) }
    {
        tell_out_deed(act.deed, to)?;
        out_send(desk, self.kept.list(), act.send, to)?;
        tell_drive(Side::Exit, act.drive, to)?;
        self.last_offer = last_by(act.send, self.outlet.offered(), self.last_offer);
        match act.back {
            Some(board) => self.kept.push_front(board),
            None => Ok(()),
        }
    }

    /// What an act of the intake tells, and does to the kept records.
    #[inline(always)]
    pub(crate) fn follow_in(
        &mut self,
        desk: &Desk,
        act: InAct,
        to: &mut Outputs,
    ) -> Result<(), Memory>
        ensures body { OnOk result (self.new ≡ record self.old { kept = settled act.keep self.old.kept }) }
        ensures acts { OnOk result (to.new ≡ to.old ++ in_told desk.now act) }
    {
        tell_in_deed(act.deed, to)?;
        in_send(desk, act.send, to)?;
        tell_drive(Side::Entry, act.drive, to)?;
        match act.keep {
            Some(board) => self.kept.push_back(board),
            None => Ok(()),
        }
    }

    /// An input to the outlet that is no message.
    #[inline(always)]
    pub(crate) fn at_outlet(
        &mut self,
        desk: &Desk,
        input: OutInput,
        to: &mut Outputs,
    ) -> Result<(), Memory>
        requires no_message { breach_of input ≡ None }
        requires given { IsGiven self.old.outlet input }
        ensures body { OnOk result (self.new ≡ (at_outlet desk.now input self.old).body) }
        ensures acts { OnOk result (to.new ≡ to.old ++ (at_outlet desk.now input self.old).acts) }
    {
        match self.outlet.apply(input) {
            Ok(act) => self.follow_out(desk, act, to),
            Err(_) => Ok(()),
        }
    }

    /// An input to the intake that is no message.
    #[inline(always)]
    pub(crate) fn at_intake(
        &mut self,
        desk: &Desk,
        input: InInput,
        to: &mut Outputs,
    ) -> Result<(), Memory>
        requires no_message { in_breach_of input ≡ None }
        requires given { IsGivenIn self.old.intake input }
        ensures body { OnOk result (self.new ≡ (at_intake desk.now input self.old).body) }
        ensures acts { OnOk result (to.new ≡ to.old ++ (at_intake desk.now input self.old).acts) }
    {
        match self.intake.apply(input) {
            Ok(act) => self.follow_in(desk, act, to),
            Err(_) => Ok(()),
        }
    }

    /// The half of a side hears that its connection is closed.
    pub(crate) fn half_closed(
        &mut self,
        desk: &Desk,
        side: Side,
        to: &mut Outputs,
    ) -> Result<(), Memory>
        ensures body { OnOk result (self.new ≡ (half_closed desk.now side self.old).body) }
        ensures acts { OnOk result (to.new ≡ to.old ++ (half_closed desk.now side self.old).acts) }
    {
        match side {
            Side::Entry => self.at_intake(desk, InInput::Closed, to),
            Side::Exit => self.at_outlet(desk, OutInput::Closed, to),
        }
    }
}
