ghost use Rattle.std.specs.Prelude.{◌≡◌};
ghost use Rattle.hermes_vertical.specs.Rows.{kind_text, kind_named};

/// The messages of the supervisory channel by their names.
#[derive(Clone, Copy, Debug, PartialEq, Eq, Hash)]
pub enum VerticalKind {
    SupervisoryServiceDescription,
    BoardArrived,
    BoardDeparted,
    QueryWorkOrderInfo,
    SendWorkOrderInfo,
    CheckAlive,
    Notification,
    /// A message of an unknown name.
    Other,
}

impl VerticalKind {
    /// The name of a message, and `Other`.
    pub fn text(self) -> &'static str
        ensures { result.now ≡ kind_text self }
    {
        match self {
            VerticalKind::SupervisoryServiceDescription => "SupervisoryServiceDescription",
            VerticalKind::BoardArrived => "BoardArrived",
            VerticalKind::BoardDeparted => "BoardDeparted",
            VerticalKind::QueryWorkOrderInfo => "QueryWorkOrderInfo",
            VerticalKind::SendWorkOrderInfo => "SendWorkOrderInfo",
            VerticalKind::CheckAlive => "CheckAlive",
            VerticalKind::Notification => "Notification",
            VerticalKind::Other => "Other",
        }
    }
}

/// The message of this name.
pub fn kind_named(name: &[u8]) -> VerticalKind
    ensures { result ≡ kind_named name.now }
{
    if name == &b"SupervisoryServiceDescription"[..] {
        return VerticalKind::SupervisoryServiceDescription;
    }
    if name == &b"BoardArrived"[..] {
        return VerticalKind::BoardArrived;
    }
    if name == &b"BoardDeparted"[..] {
        return VerticalKind::BoardDeparted;
    }
    if name == &b"QueryWorkOrderInfo"[..] {
        return VerticalKind::QueryWorkOrderInfo;
    }
    if name == &b"SendWorkOrderInfo"[..] {
        return VerticalKind::SendWorkOrderInfo;
    }
    if name == &b"CheckAlive"[..] {
        return VerticalKind::CheckAlive;
    }
    if name == &b"Notification"[..] {
        return VerticalKind::Notification;
    }
    VerticalKind::Other
}
