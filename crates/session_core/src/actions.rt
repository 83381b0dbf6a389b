ghost use Rattle.std.specs.Prelude.{◌≡◌, true};
ghost use Rattle.line_base.specs.PlainText.{is_plain_text};
ghost use Rattle.session_core.specs.Acts.{nothing, one, two};
ghost use Rattle.session_core.specs.Tells.{tell_code, tell_severity, tell_text};

use crate::ping::PingId;
use hermes_horizontal::Said;
use line_base::{Code, Severity};

/// What a machine is to do for a session, in this order.
#[derive(Debug, Drop)]
pub struct Actions {
    pub first: Option<Action>,
    pub second: Option<Action>,
    pub third: Option<Action>,
}

/// One thing that a machine is to do for a session.
#[derive(Debug, Drop)]
pub enum Action {
    /// Send the machine's own ServiceDescription.
    SendService,
    /// Send the CheckAlive that answers a ping, with the ping's Id.
    Pong(PingId),
    /// Send a ping, a CheckAlive that asks for an answer, with this number as its Id.
    Ping(u64),
    /// Send a Notification.
    Tell(Tell),
    /// Close the connection.
    Close,
    /// Tell the intake that the session stands.
    Stand,
    /// Give this message to the half of the handover, or to the board information.
    Pass(Said),
}

/// The Notifications of a session.
#[derive(Clone, Copy, Debug, PartialEq, Eq)]
pub enum Tell {
    /// To a second connection, which is then closed: there is a connection already.
    AlreadyConnected,
    /// The outlet still holds the board of an earlier connection.
    Unsettled,
    /// The machine shuts down.
    Shutdown,
}

impl Tell {
    /// The Notification's code (docs/PROFILE.md): 2 where there is a connection already, 0 for an
    /// unsettled handover, and 5 for a shutdown.
    pub fn code(self) -> Code
        ensures { result ≡ tell_code self }
    {
        let number = match self {
            Tell::AlreadyConnected => 2,
            Tell::Unsettled => 0,
            Tell::Shutdown => 5,
        };
        Code { number }
    }

    /// How grave it is.
    pub fn severity(self) -> Severity
        ensures { result ≡ tell_severity self }
    {
        match self {
            Tell::AlreadyConnected => Severity::Error,
            Tell::Unsettled => Severity::Warning,
            Tell::Shutdown => Severity::Info,
        }
    }

    /// Its description.
    pub fn text(self) -> &'static str
        ensures text { result.now ≡ tell_text self }
        ensures plain { is_plain_text result.now ≡ true }
    {
        match self {
            Tell::AlreadyConnected => "already connected",
            Tell::Unsettled => "handover unsettled",
            Tell::Shutdown => "shutdown",
        }
    }
}

impl Actions {
    pub(crate) fn nothing() -> Actions
        ensures { result ≡ nothing }
    {
        Actions {
            first: None,
            second: None,
            third: None,
        }
    }

    pub(crate) fn one(action: Action) -> Actions
        ensures { result ≡ one action }
    {
        Actions {
            first: Some(action),
            second: None,
            third: None,
        }
    }

    pub(crate) fn two(first: Action, second: Action) -> Actions
        ensures { result ≡ two first second }
    {
        Actions {
            first: Some(first),
            second: Some(second),
            third: None,
        }
    }
}
