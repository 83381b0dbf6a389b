ghost use Rattle.std.specs.Prelude.{◌≡◌};
ghost use Rattle.config_service.specs.Canonical.{kind_of, name_of};

use crate::kind::ConfigKind;
use line_base::{Code, Moment, Name, Severity, Text};
use line_outside::Address;

/// A message of the configuration service: what it says, and when it was sent, where it tells.
#[derive(Debug, PartialEq, Eq, Drop)]
pub struct ConfigMessage {
    pub stamp: Option<Moment>,
    pub body: ConfigBody,
}

/// What a message of the configuration service says.
#[derive(Debug, PartialEq, Eq, Drop)]
pub enum ConfigBody {
    /// A client asks for the settings.
    Get,
    /// A client asks that these be the settings.
    Set(Settings),
    /// A machine tells its settings.
    Current(Settings),
    Notification {
        code: Code,
        severity: Severity,
        text: Text,
    },
    /// A message of an unknown name.
    Other(Name),
}

/// Where a machine's two neighbours are.
#[derive(Clone, Copy, Debug, PartialEq, Eq)]
pub struct Settings {
    /// Where the upstream neighbour listens, if there is one.
    pub upstream: Option<Address>,
    /// Where the machine listens for its downstream neighbour.
    pub port: u16,
}

impl ConfigBody {
    /// Which message it is.
    pub fn kind(&self) -> ConfigKind
        ensures { result ≡ kind_of self.now }
    {
        match self {
            ConfigBody::Get => ConfigKind::GetConfiguration,
            ConfigBody::Set(_) => ConfigKind::SetConfiguration,
            ConfigBody::Current(_) => ConfigKind::CurrentConfiguration,
            ConfigBody::Notification { .. } => ConfigKind::Notification,
            ConfigBody::Other(_) => ConfigKind::Other,
        }
    }

    /// The name of its element.
    pub fn name(&self) -> &[u8]
        ensures { result.now ≡ name_of self.now }
    {
        match self {
            ConfigBody::Other(name) => name.bytes(),
            _ => self.kind().text().as_bytes(),
        }
    }
}
