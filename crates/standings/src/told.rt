ghost use Rattle.std.specs.Prelude.{◌≡◌, ◌↔◌, IsSome, Some};
ghost use Rattle.standings.specs.Told.{told_of};

use crate::mark::Mark;
use crate::standing::{Standing, standing_of};

/// What a report tells of an id whose standing changed.
#[derive(Clone, Copy, Debug, PartialEq, Eq)]
pub enum Told {
    /// It stands with this machine.
    With(u32),
    /// It stands in the handover at this gap.
    Between(u32),
    /// Its last mark is gone.
    Gone,
}

/// What a report tells of an id whose marks were these before a line and are those after it:
/// its new standing where that is another, and that it is gone where its last mark went. Marks
/// without a standing are told of by nothing.
pub fn told_of(before: &[Mark], after: &[Mark]) -> Option<Told>
    ensures { result ≡ told_of before.now after.now }
{
    if after.is_empty() {
        return if before.is_empty() {
            None
        } else {
            Some(Told::Gone)
        };
    }
    let stands = standing_of(after);
    if stands == standing_of(before) {
        return None;
    }
    match stands {
        Some(Standing::With(machine)) => Some(Told::With(machine)),
        Some(Standing::Between(gap)) => Some(Told::Between(gap)),
        None => None,
    }
}
