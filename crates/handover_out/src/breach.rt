ghost use Rattle.std.specs.Prelude.{◌≡◌, true};
ghost use Rattle.line_base.specs.PlainText.{is_plain_text};
ghost use Rattle.handover_out.specs.Breach.{breach_text};

use std::fmt;
use thiserror::Error;

/// A message that the outlet doesn't take in its phase, by the message's name.
///
/// It is written as its text.
#[derive(Clone, Copy, Debug, PartialEq, Eq, Error)]
pub enum OutBreach {
    StartTransport,
    StopTransport,
    MachineReady,
    RevokeMachineReady,
}

impl OutBreach {
    /// The text of the Notification with which the machine closes the connection: `unexpected` and
    /// the message's name.
    pub fn text(self) -> &'static str
        ensures text { result.now ≡ breach_text self }
        ensures plain { is_plain_text result.now ≡ true }
    {
        match self {
            OutBreach::StartTransport => "unexpected StartTransport",
            OutBreach::StopTransport => "unexpected StopTransport",
            OutBreach::MachineReady => "unexpected MachineReady",
            OutBreach::RevokeMachineReady => "unexpected RevokeMachineReady",
        }
    }
}

impl fmt::Display for OutBreach {
    ghost use Rattle.std.specs.Prelude.{Some};
    ghost use Rattle.handover_out.specs.Breach.{breach_text};

    ghost output = { λ breach. Some (breach_text breach) };

    fn fmt<W: fmt::Write>(&self, f: &mut fmt::Formatter<W>) -> fmt::Result {
        f.write_str(self.text())
    }
}
