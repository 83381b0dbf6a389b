//! What is told of where the record of a board stands, over the lanes of a line.

ghost use Rattle.std.specs.Prelude.{◌≡◌, ◌++◌, OnOk, Some, option_map};
ghost use Rattle.standings.specs.Told.{is_same_standing};
ghost use Rattle.law_lanes.specs.Shown.{standing_happens};
ghost use Rattle.line_marks.specs.declared.seat.Seat.TheVariants.{Nowhere};
ghost use Rattle.line_engine.specs.Seats.{is_same_seat, place_in, place_of, seat_told};

use board_record::BoardId;
use line_base::Memory;
use line_marks::{LaneStanding, Seat};
use line_report::{Happening, LaneHappened};
use standings::Standing;

/// The standing, if there is one.
pub fn place_in(seat: Seat) -> Option<LaneStanding>
    ensures { option_map place_of result ≡ place_in seat }
{
    match seat {
        Seat::Nowhere => None,
        Seat::Unclear => None,
        Seat::At(place) => Some(place),
    }
}

/// Tells where a board stands, where that is another place than before, or that its last mark went.
pub fn tell_seat(
    id: BoardId,
    before: Seat,
    now: Seat,
    told: &mut LaneHappened,
) -> Result<(), Memory>
    ensures { OnOk result (told.new ≡ told.old ++ seat_told id before now) }
{
    match now {
        Seat::Nowhere => tell_gone(id, before, told),
        Seat::Unclear => Ok(()),
        Seat::At(place) => {
            if is_same_seat(before, place) {
                return Ok(());
            }
            told.tell(place.lane, happening(id, place.standing))
        }
    }
}

fn tell_gone(id: BoardId, before: Seat, told: &mut LaneHappened) -> Result<(), Memory>
    ensures { OnOk result (told.new ≡ told.old ++ seat_told id before Nowhere) }
{
    match before {
        Seat::Nowhere => Ok(()),
        _ => told.tell(1, Happening::Gone { id }),
    }
}

fn is_same_seat(before: Seat, now: LaneStanding) -> bool
    ensures { result ≡ is_same_seat before now }
{
    match before {
        Seat::At(place) => now.lane == place.lane && is_same(now.standing, place.standing),
        _ => false,
    }
}

fn is_same(now: Standing, before: Standing) -> bool
    ensures { result ≡ is_same_standing (Some now) (Some before) }
{
    match (now, before) {
        (Standing::With(one), Standing::With(other)) => one == other,
        (Standing::Between(one), Standing::Between(other)) => one == other,
        (Standing::With(_), Standing::Between(_)) => false,
        (Standing::Between(_), Standing::With(_)) => false,
    }
}

fn happening(id: BoardId, standing: Standing) -> Happening
    ensures { result ≡ standing_happens id standing }
{
    match standing {
        Standing::With(machine) => Happening::With { machine, id },
        Standing::Between(gap) => Happening::Between { gap, id },
    }
}
