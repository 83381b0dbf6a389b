//! The marks of a board on all lanes.

ghost use Rattle.std.specs.Prelude.{◌≡◌, [], OnOk};
ghost use Rattle.line_marks.specs.AllMarks.{AreAscending, AreOnLanesTo, AreOrdered, IsPlaceBehind, IsWithMarks, of_lane};

use crate::marks::machine_of;
use line_base::Memory;
use standings::Mark;

/// A mark of a board on a lane.
#[derive(Clone, Copy, Debug, PartialEq, Eq)]
pub struct LaneMark {
    pub lane: u32,
    pub mark: Mark,
}

/// Puts the marks of a lane into their places among those of the lanes before it. `Memory` where
/// there is none for the list.
pub fn add_marks(lane: u32, marks: &[Mark], all: &mut Vec<LaneMark>) -> Result<(), Memory>
    requires ascending { AreAscending marks.now }
    requires none { of_lane lane all.old.items ≡ [] }
    requires lanes { AreOnLanesTo lane all.old.items }
    requires ordered { AreOrdered all.old.items }
    ensures { OnOk result (IsWithMarks lane marks.now all.old.items all.new.items) }
{
    for mark in marks {
        let place = place_behind(all.as_slice(), machine_of(*mark));
        all.insert(place, LaneMark { lane, mark: *mark })?;
    }
    Ok(())
}

/// Where a mark of a machine belongs: behind all of it and of the machines before it.
fn place_behind(all: &[LaneMark], machine: u32) -> usize
    requires { AreOrdered all.now }
    ensures { IsPlaceBehind machine result all.now }
{
    for (place, other) in all.iter().enumerate() {
        if machine < machine_of(other.mark) {
            return place;
        }
    }
    all.len()
}
