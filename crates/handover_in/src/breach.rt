ghost use Rattle.std.specs.Prelude.{◌≡◌, true};
ghost use Rattle.line_base.specs.PlainText.{is_plain_text};
ghost use Rattle.handover_in.specs.Breach.{breach_text};

use std::fmt;
use thiserror::Error;

/// A message that the intake doesn't take in its phase, by the message's name.
#[derive(Clone, Copy, Debug, PartialEq, Eq, Error)]
pub enum InBreach {
    BoardAvailable,
    RevokeBoardAvailable,
    TransportFinished,
}

impl InBreach {
    /// The text of the Notification with which the machine then closes the connection:
    /// `unexpected` and the message's name.
    pub fn text(self) -> &'static str
        ensures text { result.now ≡ breach_text self }
        ensures plain { is_plain_text result.now ≡ true }
    {
        match self {
            InBreach::BoardAvailable => "unexpected BoardAvailable",
            InBreach::RevokeBoardAvailable => "unexpected RevokeBoardAvailable",
            InBreach::TransportFinished => "unexpected TransportFinished",
        }
    }
}

impl fmt::Display for InBreach {
    ghost use Rattle.std.specs.Prelude.{Some};

    ghost output = { λ breach. Some (breach_text breach) };

    fn fmt<W: fmt::Write>(&self, f: &mut fmt::Formatter<W>) -> fmt::Result {
        f.write_str(self.text())
    }
}
