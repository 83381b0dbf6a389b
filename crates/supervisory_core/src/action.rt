ghost use Rattle.std.specs.Prelude.{◌≡◌, true};
ghost use Rattle.line_base.specs.PlainText.{is_plain_text};
ghost use Rattle.supervisory_core.specs.Told.{unexpected};

use hermes_vertical::VerticalKind;
use line_base::Text;

/// What a machine is to do at a message of its supervisor.
#[derive(Debug, PartialEq, Eq, Drop)]
pub enum VerticalAction {
    /// Send the machine's own SupervisoryServiceDescription.
    Describe,
    /// Send the CheckAlive that answers a ping, with the ping's Id.
    Pong(Option<Text>),
    /// Take this answer to the question of this number.
    Answer { query: u64, order: Text },
    Nothing,
}

/// What is told of a message of this kind that has no row, as the connection is closed:
/// `unexpected` and the message's name.
pub fn unexpected(kind: VerticalKind) -> &'static str
    ensures text { result.now ≡ unexpected kind }
    ensures plain { is_plain_text result.now ≡ true }
{
    match kind {
        VerticalKind::SupervisoryServiceDescription => "unexpected SupervisoryServiceDescription",
        VerticalKind::BoardArrived => "unexpected BoardArrived",
        VerticalKind::BoardDeparted => "unexpected BoardDeparted",
        VerticalKind::QueryWorkOrderInfo => "unexpected QueryWorkOrderInfo",
        VerticalKind::SendWorkOrderInfo => "unexpected SendWorkOrderInfo",
        VerticalKind::CheckAlive => "unexpected CheckAlive",
        VerticalKind::Notification => "unexpected Notification",
        VerticalKind::Other => "unexpected Other",
    }
}
