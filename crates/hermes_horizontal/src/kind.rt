ghost use Rattle.std.specs.Prelude.{◌≡◌};
ghost use Rattle.hermes_horizontal.specs.Rows.{kind_text, kind_among, kind_named, later_kinds};

/// The messages by their names.
#[derive(Clone, Copy, Debug, PartialEq, Eq, Hash)]
pub enum Kind {
    CheckAlive,
    ServiceDescription,
    Notification,
    BoardAvailable,
    RevokeBoardAvailable,
    MachineReady,
    RevokeMachineReady,
    StartTransport,
    StopTransport,
    TransportFinished,
    BoardForecast,
    QueryBoardInfo,
    SendBoardInfo,
    /// A message of an unknown name.
    Other,
}

impl Kind {
    /// The name of a message, and `Other`.
    pub fn text(self) -> &'static str
        ensures { result.now ≡ kind_text self }
    {
        match self {
            Kind::CheckAlive => "CheckAlive",
            Kind::ServiceDescription => "ServiceDescription",
            Kind::Notification => "Notification",
            Kind::BoardAvailable => "BoardAvailable",
            Kind::RevokeBoardAvailable => "RevokeBoardAvailable",
            Kind::MachineReady => "MachineReady",
            Kind::RevokeMachineReady => "RevokeMachineReady",
            Kind::StartTransport => "StartTransport",
            Kind::StopTransport => "StopTransport",
            Kind::TransportFinished => "TransportFinished",
            Kind::BoardForecast => "BoardForecast",
            Kind::QueryBoardInfo => "QueryBoardInfo",
            Kind::SendBoardInfo => "SendBoardInfo",
            Kind::Other => "Other",
        }
    }
}

/// The message of this name.
pub fn kind_named(name: &[u8]) -> Kind
    ensures { result ≡ kind_named name.now }
{
    if name == &b"CheckAlive"[..] {
        return Kind::CheckAlive;
    }
    if name == &b"ServiceDescription"[..] {
        return Kind::ServiceDescription;
    }
    if name == &b"Notification"[..] {
        return Kind::Notification;
    }
    if name == &b"BoardAvailable"[..] {
        return Kind::BoardAvailable;
    }
    if name == &b"RevokeBoardAvailable"[..] {
        return Kind::RevokeBoardAvailable;
    }
    if name == &b"MachineReady"[..] {
        return Kind::MachineReady;
    }
    if name == &b"RevokeMachineReady"[..] {
        return Kind::RevokeMachineReady;
    }
    later_kind_named(name)
}

/// The same among the messages from StartTransport on.
fn later_kind_named(name: &[u8]) -> Kind
    ensures { result ≡ kind_among name.now later_kinds }
{
    if name == &b"StartTransport"[..] {
        return Kind::StartTransport;
    }
    if name == &b"StopTransport"[..] {
        return Kind::StopTransport;
    }
    if name == &b"TransportFinished"[..] {
        return Kind::TransportFinished;
    }
    if name == &b"BoardForecast"[..] {
        return Kind::BoardForecast;
    }
    if name == &b"QueryBoardInfo"[..] {
        return Kind::QueryBoardInfo;
    }
    if name == &b"SendBoardInfo"[..] {
        return Kind::SendBoardInfo;
    }
    Kind::Other
}
