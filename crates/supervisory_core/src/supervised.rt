ghost use Rattle.std.specs.Prelude.{◌≡◌, None, IfOk, IfErr, OnErr, false};
ghost use Rattle.hermes_vertical.specs.Parts.{kind_of};
ghost use Rattle.supervisory_core.specs.Row.{alive_action, described_row, order_row, row, supervised_row};

use crate::action::VerticalAction;
use hermes_horizontal::Ping;
use hermes_vertical::{Vertical, VerticalKind};
use line_base::Text;
use std::marker::Model;

/// A machine's end of a session with its supervisor, on one connection. The machine is the server.
///
/// It is seen as whether it stands: whether the supervisor has described itself.
#[derive(Debug, Drop)]
pub struct Supervised {
    stands: bool,
}

impl Model for Supervised {
    ghost use Rattle.std.specs.Prelude.{Bool};

    ghost Value = { Bool };

    ghost view = { λ session. session.stands };
}

impl Supervised {
    /// The end of a new connection, on which the supervisor has not described itself yet.
    pub fn new() -> Supervised
        ensures { result ≡ false }
    {
        Supervised { stands: false }
    }

    /// Whether the supervisor's SupervisoryServiceDescription was taken.
    pub fn stands(&self) -> bool
        ensures { result ≡ self.now }
    {
        self.stands
    }

    /// A message of the supervisor came in.
    ///
    /// `Err` with the message's kind exactly where the table of the supervisory session has no row
    /// for it: a breach. The session is then as it was, and the machine closes the connection.
    pub fn on_message(&mut self, message: Vertical) -> Result<VerticalAction, VerticalKind>
        ensures row { IfOk result (λ action. supervised_row self.old message ≡ row self.new action) }
        ensures breach { IfErr result (λ kind. (supervised_row self.old message ≡ None)
            × (kind ≡ kind_of message)) }
        ensures unchanged { OnErr result (self.new ≡ self.old) }
    {
        match message {
            Vertical::SupervisoryServiceDescription(_) => self.described(),
            Vertical::SendWorkOrderInfo { query, order, .. } => self.ordered(query, order),
            Vertical::CheckAlive { ping, id } => Ok(answer_to(ping, id)),
            Vertical::Notification { .. } => Ok(VerticalAction::Nothing),
            Vertical::Other(_) => Ok(VerticalAction::Nothing),
            Vertical::BoardArrived(_) => Err(VerticalKind::BoardArrived),
            Vertical::BoardDeparted(_) => Err(VerticalKind::BoardDeparted),
            Vertical::QueryWorkOrderInfo { .. } => Err(VerticalKind::QueryWorkOrderInfo),
        }
    }

    /// The supervisor describes itself.
    fn described(&mut self) -> Result<VerticalAction, VerticalKind>
        ensures row { IfOk result (λ action. described_row self.old ≡ row self.new action) }
        ensures breach { IfErr result (λ kind. (described_row self.old ≡ None)
            × (kind ≡ VerticalKind.SupervisoryServiceDescription)) }
        ensures unchanged { OnErr result (self.new ≡ self.old) }
    {
        if self.stands {
            return Err(VerticalKind::SupervisoryServiceDescription);
        }
        self.stands = true;
        Ok(VerticalAction::Describe)
    }

    /// The supervisor answers a question.
    fn ordered(&self, query: u64, order: Text) -> Result<VerticalAction, VerticalKind>
        ensures row { IfOk result (λ action. order_row self.now query order ≡ row self.now action) }
        ensures breach { IfErr result (λ kind. (order_row self.now query order ≡ None)
            × (kind ≡ VerticalKind.SendWorkOrderInfo)) }
    {
        if !self.stands {
            return Err(VerticalKind::SendWorkOrderInfo);
        }
        Ok(VerticalAction::Answer { query, order })
    }
}

/// A ping is answered with its Id.
fn answer_to(ping: Option<Ping>, id: Option<Text>) -> VerticalAction
    ensures { result ≡ alive_action ping id }
{
    match ping {
        Some(Ping::Ask) => VerticalAction::Pong(id),
        _ => VerticalAction::Nothing,
    }
}
