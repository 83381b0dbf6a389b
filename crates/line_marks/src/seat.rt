//! Where the record of a board stands by its marks on some lanes.

ghost use Rattle.std.specs.Prelude.{◌≡◌};
ghost use Rattle.line_marks.specs.Seats.{both, own_seat, seat_at};

use standings::{Mark, Standing, standing_of};

/// Where a board's record stands, and on which lane.
#[derive(Clone, Copy, Debug, PartialEq, Eq)]
pub struct LaneStanding {
    pub lane: u32,
    pub standing: Standing,
}

/// What the marks of a board on some lanes give.
#[derive(Clone, Copy)]
pub enum Seat {
    /// It has no mark.
    Nowhere,
    /// Its marks give no standing.
    Unclear,
    /// It stands there.
    At(LaneStanding),
}

fn seat_at(lane: u32, standing: Option<Standing>) -> Seat
    ensures { result ≡ seat_at lane standing }
{
    match standing {
        None => Seat::Unclear,
        Some(standing) => Seat::At(LaneStanding { lane, standing }),
    }
}

/// What marks on one lane give.
pub fn own_seat(lane: u32, marks: &[Mark]) -> Seat
    ensures { result ≡ own_seat lane marks.now }
{
    if marks.is_empty() {
        return Seat::Nowhere;
    }
    seat_at(lane, standing_of(marks))
}

/// What there is on some lanes and on others.
pub fn both(one: Seat, other: Seat) -> Seat
    ensures { result ≡ both one other }
{
    match (one, other) {
        (Seat::Nowhere, other) => other,
        (one, Seat::Nowhere) => one,
        (_, _) => Seat::Unclear,
    }
}
