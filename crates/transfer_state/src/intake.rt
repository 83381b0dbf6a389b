ghost use Rattle.std.specs.Prelude.{◌≡◌, ◌≢◌, ◌↔◌};
ghost use Rattle.transfer_state.specs.Intake.{in_ends};

use line_base::{Seen, Transfer};

/// What the downstream machine does with a board as its handover ends.
#[derive(Clone, Copy, Debug, PartialEq, Eq, Hash)]
pub enum InEnd {
    /// The board is inside: its record stays.
    Keep,
    /// The board didn't come: its record is dropped.
    Drop,
    /// The board lies between the machines, or the two ends contradict each other: its sensors
    /// will tell.
    Wait,
}

/// How a handover ends for the downstream machine: `own` is what its sensors saw, `heard` what
/// the upstream machine said.
pub fn in_ends(own: Seen, heard: Transfer) -> InEnd
    ensures cell { result ≡ in_ends own heard }
    // a record stays exactly where its board was seen inside and is not said never to have left
    ensures kept { (result ≡ InEnd.Keep) ↔ ((own ≡ Seen.Complete) × (heard ≢ Transfer.NotStarted)) }
    // and what was taken out by hand is dropped whatever was heard
    ensures taken { own ≡ Seen.Taken → result ≡ InEnd.Drop }
{
    match (own, heard) {
        (Seen::NotStarted, Transfer::NotStarted) => InEnd::Drop,
        (Seen::NotStarted, Transfer::Incomplete) => InEnd::Drop,
        (Seen::NotStarted, Transfer::Complete) => InEnd::Wait,
        (Seen::Incomplete, _) => InEnd::Wait,
        (Seen::Complete, Transfer::NotStarted) => InEnd::Wait,
        (Seen::Complete, Transfer::Incomplete) => InEnd::Keep,
        (Seen::Complete, Transfer::Complete) => InEnd::Keep,
        (Seen::Taken, _) => InEnd::Drop,
    }
}
