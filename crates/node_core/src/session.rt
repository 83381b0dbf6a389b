ghost use Rattle.std.specs.Prelude.{◌≡◌, ◌++◌, IfOk, IfErr, OnErr, OnOk, true, None, is_some};
ghost use Rattle.session_core.specs.Input.{heard};
ghost use Rattle.session_core.specs.End.{at_rest};
ghost use Rattle.session_core.specs.Row.{session_row, row};
ghost use Rattle.handover_out.specs.State.{held};
ghost use Rattle.node_core.specs.Sides.{session_at, with_session, is_open};
ghost use Rattle.node_core.specs.Halves.{ended};
ghost use Rattle.node_core.specs.Told.{service_of, tells, notification};
ghost use Rattle.session_core.specs.Passing.{pass_open};
ghost use Rattle.node_core.specs.Session.{closes, action_did, maybe_did, actions_did, breaches};

use crate::act::{Act, Outputs};
use crate::desk::Desk;
use crate::halves::send;
use crate::lane::Body;
use handover_in::InInput;
use hermes_horizontal::{Features, Horizontal, Ping, Said, Service};
use line_base::{Code, Memory, Severity, Side, Text};
use session_core::{Action, Actions, Breach, SessionState, Tell};
use std::alloc::Global;

/// How the machine describes itself.
fn service_of(desk: &Desk) -> Result<Horizontal, Memory>
    ensures { IfOk result (λ what. what ≡ service_of desk.now) }
{
    let machine = desk.name().copy(desk.alloc())?;
    let version = Text::plain(desk.alloc(), b"1.5")?;
    Ok(Horizontal::ServiceDescription(Service {
        machine,
        lane: desk.lane(),
        version,
        interface: None,
        features: Features {
            check_alive: true,
            forecast: true,
            query: true,
            send: true,
        },
    }))
}

fn notification(number: u32, severity: Severity, text: Text) -> Horizontal
    ensures { result ≡ notification number severity text }
{
    Horizontal::Notification {
        code: Code { number },
        severity,
        text,
    }
}

/// What a session tells.
fn tells(alloc: Global, what: Tell) -> Result<Horizontal, Memory>
    ensures { IfOk result (λ said. said ≡ tells what) }
{
    let text = Text::plain(alloc, what.text().as_bytes())?;
    Ok(Horizontal::Notification {
        code: what.code(),
        severity: what.severity(),
        text,
    })
}

impl Body {
    /// Whether a side has a connection.
    pub(crate) fn is_open(&self, side: Side) -> bool
        ensures { result ≡ is_open side self.now }
    {
        let state = match side {
            Side::Entry => self.entry.session.state(),
            Side::Exit => self.exit.session.state(),
        };
        state != SessionState::NotConnected
    }

    /// A message comes to a side's session.
    #[tactic(auto, using(crate::proofs::Opened::not_off))]
    pub(crate) fn session_hears(&mut self, side: Side, what: Said) -> Result<Actions, Breach>
        requires { is_open side self.old ≡ true }
        ensures row { IfOk result
            (λ actions.
            session_row (session_at side self.old) (heard what (is_some (held self.old.outlet)))
            ≡ row (session_at side self.new) actions) }
        ensures body { IfOk result
            (λ actions. self.new ≡ with_session side (session_at side self.new) self.old) }
        ensures open { IfOk result
            (λ actions. pass_open actions.first (session_at side self.new).state ≡ true) }
        ensures breach { IfErr result
            (λ breach.
            session_row (session_at side self.old) (heard what (is_some (held self.old.outlet)))
            ≡ None) }
        ensures unchanged { OnErr result (self.new ≡ self.old) }
    {
        let unsettled = self.outlet.holds().is_some();
        match side {
            Side::Entry => self.entry.session.on_message(what, unsettled),
            Side::Exit => self.exit.session.on_message(what, unsettled),
        }
    }

    #[tactic(auto, using(crate::proofs::Opened::not_off))]
    fn session_closed(&mut self, side: Side)
        requires { is_open side self.old ≡ true }
        ensures { self.new ≡ with_session side (at_rest (session_at side self.old).role) self.old }
    {
        match side {
            Side::Entry => self.entry.session.on_closed(),
            Side::Exit => self.exit.session.on_closed(),
        }
    }

    /// A side's connection is at an end: its session has none, and its half hears of it.
    pub(crate) fn end(&mut self, desk: &Desk, side: Side, to: &mut Outputs) -> Result<(), Memory>
        requires { is_open side self.old ≡ true }
        ensures body { OnOk result (self.new ≡ (ended desk.now side self.old).body) }
        ensures acts { OnOk result (to.new ≡ to.old ++ (ended desk.now side self.old).acts) }
    {
        self.session_closed(side);
        self.half_closed(desk, side, to)
    }

    fn close(&mut self, desk: &Desk, side: Side, to: &mut Outputs) -> Result<(), Memory>
        ensures body { OnOk result (self.new ≡ (closes desk.now side self.old).body) }
        ensures acts { OnOk result (to.new ≡ to.old ++ (closes desk.now side self.old).acts) }
    {
        to.push(Act::Closes(side))?;
        self.half_closed(desk, side, to)
    }

    fn act(
        &mut self,
        desk: &Desk,
        side: Side,
        action: Action,
        to: &mut Outputs,
    ) -> Result<(), Memory>
        ensures body { OnOk result (self.new ≡ (action_did desk.now side action self.old).body) }
        ensures acts { OnOk result (to.new ≡ to.old ++ (action_did desk.now side action self.old).acts) }
    {
        match action {
            Action::SendService => {
                let what = service_of(desk)?;
                send(desk, side, what, to)
            }
            Action::Pong(id) => {
                let id = id.copy(desk.alloc())?;
                let ping = Some(Ping::Answer);
                send(desk, side, Horizontal::CheckAlive { ping, id }, to)
            }
            Action::Ping(number) => {
                let ping = Some(Ping::Ask);
                let id = Some(Text::number(desk.alloc(), number)?);
                send(desk, side, Horizontal::CheckAlive { ping, id }, to)
            }
            Action::Tell(what) => {
                let what = tells(desk.alloc(), what)?;
                send(desk, side, what, to)
            }
            Action::Close => self.close(desk, side, to),
            Action::Stand => self.at_intake(desk, InInput::Stand, to),
            Action::Pass(_) => Ok(()),
        }
    }

    fn maybe_act(
        &mut self,
        desk: &Desk,
        side: Side,
        action: Option<Action>,
        to: &mut Outputs,
    ) -> Result<(), Memory>
        ensures body { OnOk result (self.new ≡ (maybe_did desk.now side action self.old).body) }
        ensures acts { OnOk result (to.new ≡ to.old ++ (maybe_did desk.now side action self.old).acts) }
    {
        match action {
            Some(action) => self.act(desk, side, action, to),
            None => Ok(()),
        }
    }

    /// What a session has its machine do.
    pub(crate) fn act_all(
        &mut self,
        desk: &Desk,
        side: Side,
        actions: Actions,
        to: &mut Outputs,
    ) -> Result<(), Memory>
        ensures body { OnOk result (self.new ≡ (actions_did desk.now side actions self.old).body) }
        ensures acts { OnOk result (to.new ≡ to.old ++ (actions_did desk.now side actions self.old).acts) }
    {
        let Actions {
            first,
            second,
            third,
        } = actions;
        self.maybe_act(desk, side, first, to)?;
        self.maybe_act(desk, side, second, to)?;
        self.maybe_act(desk, side, third, to)
    }

    /// A breach with this text.
    pub(crate) fn breach(
        &mut self,
        desk: &Desk,
        side: Side,
        text: Text,
        to: &mut Outputs,
    ) -> Result<(), Memory>
        requires { is_open side self.old ≡ true }
        ensures body { OnOk result (self.new ≡ (breaches desk.now side text self.old).body) }
        ensures acts { OnOk result (to.new ≡ to.old ++ (breaches desk.now side text self.old).acts) }
    {
        let copy = text.copy(desk.alloc())?;
        to.push(Act::Breaches(side, copy))?;
        send(desk, side, notification(1, Severity::Fatal, text), to)?;
        to.push(Act::Closes(side))?;
        self.end(desk, side, to)
    }
}
