ghost use Rattle.std.specs.Prelude.{◌≡◌};
ghost use Rattle.session_core.specs.Handling.{handling_of};

use hermes_horizontal::Kind;
use line_base::Role;

/// What a standing session does with a message that isn't one of every connection.
#[derive(Clone, Copy, Debug, PartialEq, Eq)]
pub enum Handling {
    /// It passes the message on.
    Pass,
    /// It has no row for the message.
    Refuse,
}

/// What a standing session does with a message of this kind in this part.
pub(crate) fn handling_of(kind: Kind, role: Role) -> Handling
    ensures { result ≡ handling_of kind role }
{
    match (kind, role) {
        (
            Kind::MachineReady
            | Kind::RevokeMachineReady
            | Kind::StartTransport
            | Kind::StopTransport
            | Kind::QueryBoardInfo,
            Role::Upstream,
        ) => Handling::Pass,
        (
            Kind::BoardAvailable
            | Kind::RevokeBoardAvailable
            | Kind::TransportFinished
            | Kind::BoardForecast
            | Kind::SendBoardInfo,
            Role::Downstream,
        ) => Handling::Pass,
        _ => Handling::Refuse,
    }
}
