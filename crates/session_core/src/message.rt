ghost use Rattle.std.specs.Prelude.{◌≡◌, ◌≢◌, None, true, IfOk, IfErr, OnErr};
ghost use Rattle.hermes_horizontal.specs.Parts.{kind_of};
ghost use Rattle.session_core.specs.Input.{heard};
ghost use Rattle.session_core.specs.Passing.{pass_open};
ghost use Rattle.session_core.specs.Row.{session_row, service_row, traffic_row, alive_actions, actions_at, row};

use crate::actions::{Action, Actions, Tell};
use crate::breach::Breach;
use crate::handling::{Handling, handling_of};
use crate::ping::PingId;
use crate::session::Session;
use crate::state::SessionState;
use hermes_horizontal::{Features, Horizontal, Kind, Ping, Said};
use line_base::Role;

impl Session {
    /// A message came in. `unsettled` says whether the machine's outlet holds a board.
    ///
    /// A breach exactly where the session table has no row for the message. The session is then
    /// unchanged, and the machine has to close it by `on_closed`. Where a message is to be passed
    /// on, the session has a connection.
    #[tactic(auto, using(crate::proofs::States::pass_opens))]
    #[inline(always)]
    pub fn on_message(&mut self, message: Said, unsettled: bool) -> Result<Actions, Breach>
        requires { self.old.state ≢ SessionState.NotConnected }
        ensures row { IfOk result
            (λ actions. session_row self.old (heard message unsettled) ≡ row self.new actions) }
        ensures open { IfOk result (λ actions. pass_open actions.first self.new.state ≡ true) }
        ensures breach { IfErr result (λ breach. (session_row self.old (heard message unsettled) ≡ None)
            × (breach.kind ≡ kind_of message)) }
        ensures unchanged { OnErr result (self.new ≡ self.old) }
    {
        match message.what() {
            Horizontal::CheckAlive { ping, .. } => {
                let ping = *ping;
                self.take();
                Ok(answer_to(ping, PingId::of(message)))
            }
            Horizontal::Notification { .. } => {
                self.take();
                Ok(Actions::nothing())
            }
            Horizontal::Other(_) => {
                self.take();
                Ok(Actions::nothing())
            }
            Horizontal::ServiceDescription(service) => {
                let features = service.features;
                self.described(features, unsettled)
            }
            _ => self.hear(message),
        }
    }
}

impl Session {
    /// The peer describes itself.
    fn described(&mut self, features: Features, unsettled: bool) -> Result<Actions, Breach>
        ensures row { IfOk result
            (λ actions. service_row self.old.state self.old features unsettled
            ≡ row self.new actions) }
        ensures breach { IfErr result
            (λ breach. (service_row self.old.state self.old features unsettled ≡ None)
            × (breach.kind ≡ Kind.ServiceDescription)) }
        ensures unchanged { OnErr result (self.new ≡ self.old) }
    {
        if self.state() != SessionState::Handshake {
            let kind = Kind::ServiceDescription;
            return Err(Breach { kind });
        }
        match (self.role(), unsettled) {
            (Role::Upstream, true) => {
                self.restart(SessionState::NotConnected);
                Ok(Actions::two(Action::Tell(Tell::Unsettled), Action::Close))
            }
            (Role::Upstream, false) => {
                self.stand(features);
                Ok(Actions::one(Action::SendService))
            }
            (Role::Downstream, _) => {
                self.stand(features);
                Ok(Actions::one(Action::Stand))
            }
        }
    }

    /// A message that only a standing session takes.
    fn hear(&mut self, message: Said) -> Result<Actions, Breach>
        ensures row { IfOk result (λ actions. traffic_row self.old.state self.old message ≡ row self.new actions) }
        ensures breach { IfErr result (λ breach. (traffic_row self.old.state self.old message ≡ None) × (breach.kind ≡ kind_of message)) }
        ensures unchanged { OnErr result (self.new ≡ self.old) }
    {
        let kind = message.what().kind();
        if self.state() != SessionState::Standing {
            return Err(Breach { kind });
        }
        match actions_at(handling_of(kind, self.role()), message) {
            Some(actions) => {
                self.take();
                Ok(actions)
            }
            None => Err(Breach { kind }),
        }
    }
}

/// What is to be done at a message that is handled so, or that there is no row for it.
fn actions_at(handling: Handling, message: Said) -> Option<Actions>
    ensures { result ≡ actions_at handling message }
{
    match handling {
        Handling::Pass => Some(Actions::one(Action::Pass(message))),
        Handling::Refuse => None,
    }
}

/// A ping is answered with its Id.
fn answer_to(ping: Option<Ping>, id: PingId) -> Actions
    ensures { result ≡ alive_actions ping id }
{
    match ping {
        Some(Ping::Ask) => Actions::one(Action::Pong(id)),
        _ => Actions::nothing(),
    }
}
