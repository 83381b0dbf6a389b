ghost use Rattle.std.specs.Prelude.{◌≡◌, ◌++◌, OnOk, true, false};
ghost use Rattle.line_base.specs.declared.states.Side.TheVariants.{Entry, Exit};
ghost use Rattle.line_base.specs.declared.states.Role.TheVariants.{Upstream};
ghost use Rattle.session_core.specs.Input.{opened, second, tick, shutdown};
ghost use Rattle.session_core.specs.Row.{session_row, row};
ghost use Rattle.node_core.specs.Sides.{session_at, with_session, is_open};
ghost use Rattle.node_core.specs.Connect.{opens, meets_second, notices, ticks, shuts_down, both_tick, both_shut_down};

use crate::act::{Act, Outputs};
use crate::desk::Desk;
use crate::lane::Body;
use line_base::{Memory, Side};
use session_core::Actions;

impl Body {
    #[tactic(auto, using(crate::proofs::Opened::is_off))]
    fn session_opens(&mut self, side: Side) -> Actions
        requires { is_open side self.old ≡ false }
        ensures row { session_row (session_at side self.old) opened
            ≡ row (session_at side self.new) result }
        ensures body { self.new ≡ with_session side (session_at side self.new) self.old }
    {
        match side {
            Side::Entry => self.entry.session.on_open(),
            Side::Exit => self.exit.session.on_open(),
        }
    }

    #[tactic(auto, using(crate::proofs::Opened::not_off))]
    fn session_ticks(&mut self, side: Side) -> Actions
        requires { is_open side self.old ≡ true }
        ensures row { session_row (session_at side self.old) tick
            ≡ row (session_at side self.new) result }
        ensures body { self.new ≡ with_session side (session_at side self.new) self.old }
    {
        match side {
            Side::Entry => self.entry.session.on_tick(),
            Side::Exit => self.exit.session.on_tick(),
        }
    }

    #[tactic(auto, using(crate::proofs::Opened::not_off))]
    fn session_shuts_down(&mut self, side: Side) -> Actions
        requires { is_open side self.old ≡ true }
        ensures row { session_row (session_at side self.old) shutdown
            ≡ row (session_at side self.new) result }
        ensures body { self.new ≡ with_session side (session_at side self.new) self.old }
    {
        match side {
            Side::Entry => self.entry.session.on_shutdown(),
            Side::Exit => self.exit.session.on_shutdown(),
        }
    }

    /// A connection of a side is made.
    #[tactic(auto, using(crate::proofs::Opened::opened_has_none, crate::proofs::Opened::row_did))]
    pub(crate) fn open(&mut self, desk: &Desk, side: Side, to: &mut Outputs) -> Result<(), Memory>
        ensures body { OnOk result (self.new ≡ (opens desk.now side self.old).body) }
        ensures acts { OnOk result (to.new ≡ to.old ++ (opens desk.now side self.old).acts) }
    {
        if self.is_open(side) {
            return Ok(());
        }
        let actions = self.session_opens(side);
        self.act_all(desk, side, actions, to)
    }

    /// The downstream neighbour connects a second time.
    #[tactic(auto, using(crate::proofs::Opened::not_off, crate::proofs::Opened::second_has_none, crate::proofs::Opened::row_did))]
    pub(crate) fn meet_second(&mut self, desk: &Desk, to: &mut Outputs) -> Result<(), Memory>
        requires { self.old.exit.session.role ≡ Upstream }
        ensures body { OnOk result (self.new ≡ (meets_second desk.now self.old).body) }
        ensures acts { OnOk result (to.new ≡ to.old ++ (meets_second desk.now self.old).acts) }
    {
        if !self.is_open(Side::Exit) {
            return Ok(());
        }
        let actions = self.exit.session.on_second();
        self.act_all(desk, Side::Exit, actions, to)
    }

    /// The connection of a side is found closed.
    pub(crate) fn notice(&mut self, desk: &Desk, side: Side, to: &mut Outputs) -> Result<(), Memory>
        ensures body { OnOk result (self.new ≡ (notices desk.now side self.old).body) }
        ensures acts { OnOk result (to.new ≡ to.old ++ (notices desk.now side self.old).acts) }
    {
        if !self.is_open(side) {
            return Ok(());
        }
        to.push(Act::Notices(side))?;
        self.end(desk, side, to)
    }

    #[tactic(auto, using(crate::proofs::Opened::tick_has_none, crate::proofs::Opened::row_did))]
    fn tick(&mut self, desk: &Desk, side: Side, to: &mut Outputs) -> Result<(), Memory>
        ensures body { OnOk result (self.new ≡ (ticks desk.now side self.old).body) }
        ensures acts { OnOk result (to.new ≡ to.old ++ (ticks desk.now side self.old).acts) }
    {
        if !self.is_open(side) {
            return Ok(());
        }
        let actions = self.session_ticks(side);
        self.act_all(desk, side, actions, to)
    }

    #[tactic(auto, using(crate::proofs::Opened::shutdown_has_none, crate::proofs::Opened::row_did))]
    fn shut_down(&mut self, desk: &Desk, side: Side, to: &mut Outputs) -> Result<(), Memory>
        ensures body { OnOk result (self.new ≡ (shuts_down desk.now side self.old).body) }
        ensures acts { OnOk result (to.new ≡ to.old ++ (shuts_down desk.now side self.old).acts) }
    {
        if !self.is_open(side) {
            return Ok(());
        }
        let actions = self.session_shuts_down(side);
        self.act_all(desk, side, actions, to)
    }

    /// The clock ticks, for the entry first and then for the exit.
    pub(crate) fn tick_both(&mut self, desk: &Desk, to: &mut Outputs) -> Result<(), Memory>
        ensures body { OnOk result (self.new ≡ (both_tick desk.now self.old).body) }
        ensures acts { OnOk result (to.new ≡ to.old ++ (both_tick desk.now self.old).acts) }
    {
        self.tick(desk, Side::Entry, to)?;
        self.tick(desk, Side::Exit, to)
    }

    /// The machine shuts down, the entry first and then the exit.
    pub(crate) fn shut_down_both(&mut self, desk: &Desk, to: &mut Outputs) -> Result<(), Memory>
        ensures body { OnOk result (self.new ≡ (both_shut_down desk.now self.old).body) }
        ensures acts { OnOk result (to.new ≡ to.old ++ (both_shut_down desk.now self.old).acts) }
    {
        self.shut_down(desk, Side::Entry, to)?;
        self.shut_down(desk, Side::Exit, to)
    }
}
