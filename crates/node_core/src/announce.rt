ghost use Rattle.std.specs.Prelude.{◌≡◌, ◌++◌, OnOk, option_map};
ghost use Rattle.node_core.specs.Sides.{is_standing};
ghost use Rattle.node_core.specs.Places.{has_place};
ghost use Rattle.node_core.specs.Announces.{is_intake_free, is_front, revokes_now, revoke, unreadies_now, unready, offers_now, offer, readies_now, ready, starts_now, start, announces};

use crate::act::Outputs;
use crate::desk::Desk;
use crate::lane::Body;
use board_record::{BoardId, Record};
use handover_in::{InInput, InPhase};
use handover_out::{OutInput, OutPhase};
use line_base::{Memory, Side};
use session_core::SessionState;

/// Whether the front record is that of this board.
pub(crate) fn is_front(offered: Option<BoardId>, front: Option<&Record>) -> bool
    ensures { result ≡ is_front offered (option_map (λ board. board.now) front.entry) }
{
    match front {
        Some(board) => offered == Some(board.id),
        None => false,
    }
}

impl Body {
    /// Whether there is a place for one board more.
    pub(crate) fn has_place(&self, desk: &Desk) -> bool
        ensures { result ≡ has_place desk.now self.now }
    {
        let kept = self.kept.list().len();
        let capacity = desk.capacity() as usize;
        let outside = self.outlet.holds().is_some();
        let inside = self.intake.holds().is_some();
        match (outside, inside) {
            (false, false) => kept < capacity,
            (true, true) => capacity > 2 && kept < capacity - 2,
            _ => capacity > 1 && kept < capacity - 1,
        }
    }

    /// Whether the session of a side stands.
    pub(crate) fn is_standing(&self, side: Side) -> bool
        ensures { result ≡ is_standing side self.now }
    {
        let state = match side {
            Side::Entry => self.entry.session.state(),
            Side::Exit => self.exit.session.state(),
        };
        state == SessionState::Standing
    }

    /// Whether the intake has no open handover.
    pub(crate) fn is_intake_free(&self) -> bool
        ensures { result ≡ is_intake_free self.now }
    {
        self.intake.phase() == InPhase::Idle
    }

    fn revokes_now(&self) -> bool
        ensures { result ≡ revokes_now self.now }
    {
        let offered = self.outlet.offered();
        self.outlet.phase() == OutPhase::Idle
            && offered.is_some()
            && (!self.exit.willing || !is_front(offered, self.kept.list().first()))
    }

    fn unreadies_now(&self, desk: &Desk) -> bool
        ensures { result ≡ unreadies_now desk.now self.now }
    {
        self.is_intake_free()
            && self.intake.ready()
            && (!self.entry.willing || !self.has_place(desk))
    }

    fn offers_now(&self) -> bool
        ensures { result ≡ offers_now self.now }
    {
        self.is_standing(Side::Exit)
            && self.outlet.phase() == OutPhase::Idle
            && self.outlet.offered().is_none()
            && self.exit.willing
    }

    fn readies_now(&self, desk: &Desk) -> bool
        ensures { result ≡ readies_now desk.now self.now }
    {
        self.is_standing(Side::Entry)
            && self.is_intake_free()
            && !self.intake.ready()
            && self.entry.willing
            && self.has_place(desk)
    }

    fn starts_now(&self) -> bool
        ensures { result ≡ starts_now self.now }
    {
        self.is_standing(Side::Entry)
            && self.is_intake_free()
            && self.intake.ready()
            && self.intake.offer().is_some()
    }

    /// The offer is taken back, where it is due.
    fn revoke(&mut self, desk: &Desk, to: &mut Outputs) -> Result<(), Memory>
        ensures body { OnOk result (self.new ≡ (revoke desk.now self.old).body) }
        ensures acts { OnOk result (to.new ≡ to.old ++ (revoke desk.now self.old).acts) }
    {
        if !self.revokes_now() {
            return Ok(());
        }
        self.at_outlet(desk, OutInput::Revoke, to)
    }

    /// The machine is not ready any more, where it is due.
    fn unready(&mut self, desk: &Desk, to: &mut Outputs) -> Result<(), Memory>
        ensures body { OnOk result (self.new ≡ (unready desk.now self.old).body) }
        ensures acts { OnOk result (to.new ≡ to.old ++ (unready desk.now self.old).acts) }
    {
        if !self.unreadies_now(desk) {
            return Ok(());
        }
        self.at_intake(desk, InInput::Unready, to)
    }

    /// The front board is offered, where it is due.
    fn offer(&mut self, desk: &Desk, to: &mut Outputs) -> Result<(), Memory>
        ensures body { OnOk result (self.new ≡ (offer desk.now self.old).body) }
        ensures acts { OnOk result (to.new ≡ to.old ++ (offer desk.now self.old).acts) }
    {
        if !self.offers_now() {
            return Ok(());
        }
        match self.kept.list().first() {
            Some(front) => {
                let id = front.id;
                self.at_outlet(desk, OutInput::Offer(id), to)
            }
            None => Ok(()),
        }
    }

    /// The machine is ready, where it is due.
    fn ready(&mut self, desk: &Desk, to: &mut Outputs) -> Result<(), Memory>
        ensures body { OnOk result (self.new ≡ (ready desk.now self.old).body) }
        ensures acts { OnOk result (to.new ≡ to.old ++ (ready desk.now self.old).acts) }
    {
        if !self.readies_now(desk) {
            return Ok(());
        }
        self.at_intake(desk, InInput::Ready, to)
    }

    /// The transport starts, where it is due.
    fn start(&mut self, desk: &Desk, to: &mut Outputs) -> Result<(), Memory>
        ensures body { OnOk result (self.new ≡ (start desk.now self.old).body) }
        ensures acts { OnOk result (to.new ≡ to.old ++ (start desk.now self.old).acts) }
    {
        if !self.starts_now() {
            return Ok(());
        }
        self.at_intake(desk, InInput::Start, to)
    }

    /// The announcements that are due, in their order.
    pub(crate) fn announce(&mut self, desk: &Desk, to: &mut Outputs) -> Result<(), Memory>
        ensures body { OnOk result (self.new ≡ (announces desk.now self.old).body) }
        ensures acts { OnOk result (to.new ≡ to.old ++ (announces desk.now self.old).acts) }
    {
        self.revoke(desk, to)?;
        self.unready(desk, to)?;
        self.offer(desk, to)?;
        self.ready(desk, to)?;
        self.start(desk, to)
    }
}
