ghost use Rattle.std.specs.Prelude.{◌≡◌};
ghost use Rattle.board_traces.specs.Texts.{is_of, teller_of, way_of, went_so};

use standings::{Deed, Mark};
use std::fmt;

/// How a board went.
#[derive(Clone, Copy, Debug, PartialEq, Eq)]
pub enum Way {
    /// It was taken out by hand.
    Removed,
    /// Another is in its place.
    Replaced,
    /// It left a machine, and no machine after it had its record.
    Left,
    /// The machine before the gap gave it up.
    Lost,
    /// The machine after the gap gave it up.
    Dropped,
}

/// What boards are counted by.
#[derive(Clone, Copy, Debug, PartialEq, Eq)]
pub enum Sort {
    /// It has a mark.
    Standing,
    /// Its last mark was dropped by the machine after a gap.
    Dropped,
    /// Its last mark left a machine, or was given up by the machine before a gap.
    Lost,
}

impl fmt::Display for Way {
    ghost use Rattle.std.specs.Prelude.{Some};
    ghost use Rattle.board_traces.specs.Texts.{way_text};

    ghost output = { λ way. Some (way_text way) };

    fn fmt<W: fmt::Write>(&self, f: &mut fmt::Formatter<W>) -> fmt::Result {
        match self {
            Way::Removed => f.write_str("removed"),
            Way::Replaced => f.write_str("replaced"),
            Way::Left => f.write_str("left"),
            Way::Lost => f.write_str("lost"),
            Way::Dropped => f.write_str("dropped"),
        }
    }
}

/// How a board went whose last mark this deed took.
pub fn way_of(deed: Deed) -> Way
    ensures { result ≡ way_of deed }
{
    match deed {
        Deed::Removes { .. } => Way::Removed,
        Deed::Replaces { .. } => Way::Replaced,
        Deed::Loses { .. } => Way::Lost,
        Deed::Drops { .. } => Way::Dropped,
        _ => Way::Left,
    }
}

/// The machine that tells a deed.
pub fn teller_of(deed: Deed) -> u64
    ensures { result ≡ teller_of deed }
{
    match deed {
        Deed::Inserts { machine, .. } | Deed::Comes { machine, .. } => u64::from(machine),
        Deed::Removes { machine, .. } | Deed::Replaces { machine, .. } => u64::from(machine),
        Deed::Opens { gap, .. } | Deed::Returns { gap, .. } => u64::from(gap),
        Deed::Leaves { gap, .. } | Deed::Loses { gap, .. } => u64::from(gap),
        Deed::Starts { gap, .. } | Deed::Settles { gap, .. } | Deed::Drops { gap, .. } => {
            u64::from(gap) + 1
        }
    }
}

/// Whether a board is of a sort, by its marks and the last deed that named it.
pub fn is_of(sort: Sort, marks: &[Mark], last: Deed) -> bool
    ensures { result ≡ is_of sort marks.now last }
{
    if !marks.is_empty() {
        return sort == Sort::Standing;
    }
    went_so(way_of(last), sort)
}

fn went_so(way: Way, sort: Sort) -> bool
    ensures { result ≡ went_so way sort }
{
    match (way, sort) {
        (Way::Left, Sort::Lost) | (Way::Lost, Sort::Lost) => true,
        (Way::Dropped, Sort::Dropped) => true,
        (_, _) => false,
    }
}
