ghost use Rattle.std.specs.Prelude.{◌≡◌, true};
ghost use Rattle.line_base.specs.PlainText.{is_plain_text};
ghost use Rattle.session_core.specs.Breach.{breach_text};

use hermes_horizontal::Kind;
use std::fmt;
use thiserror::Error;

/// A message of this kind came for which the session table has no row.
///
/// It is written as its text.
#[derive(Clone, Copy, Debug, PartialEq, Eq, Error)]
pub struct Breach {
    pub kind: Kind,
}

impl Breach {
    /// The text of the Notification with which the machine closes the connection: `unexpected` and
    /// the message's name.
    pub fn text(self) -> &'static str
        ensures text { result.now ≡ breach_text self }
        ensures plain { is_plain_text result.now ≡ true }
    {
        match self.kind {
            Kind::CheckAlive => "unexpected CheckAlive",
            Kind::ServiceDescription => "unexpected ServiceDescription",
            Kind::Notification => "unexpected Notification",
            Kind::BoardAvailable => "unexpected BoardAvailable",
            Kind::RevokeBoardAvailable => "unexpected RevokeBoardAvailable",
            Kind::MachineReady => "unexpected MachineReady",
            Kind::RevokeMachineReady => "unexpected RevokeMachineReady",
            Kind::StartTransport => "unexpected StartTransport",
            Kind::StopTransport => "unexpected StopTransport",
            Kind::TransportFinished => "unexpected TransportFinished",
            Kind::BoardForecast => "unexpected BoardForecast",
            Kind::QueryBoardInfo => "unexpected QueryBoardInfo",
            Kind::SendBoardInfo => "unexpected SendBoardInfo",
            Kind::Other => "unexpected Other",
        }
    }
}

impl fmt::Display for Breach {
    ghost use Rattle.std.specs.Prelude.{Some};
    ghost use Rattle.session_core.specs.Breach.{breach_text};

    ghost output = { λ breach. Some (breach_text breach) };

    fn fmt<W: fmt::Write>(&self, f: &mut fmt::Formatter<W>) -> fmt::Result {
        f.write_str(self.text())
    }
}
