ghost use Rattle.std.specs.Prelude.{◌≡◌, IfSome, Some};
ghost use Rattle.std.specs.List.{list_all};
ghost use Rattle.standings.specs.Standing.{HasStanding, Place, gap_named, is_all_among, is_among, is_kept_by, kept_alone, standing_of};

use crate::mark::Mark;

/// Where a board's record stands.
#[derive(Clone, Copy, Debug, PartialEq, Eq)]
pub enum Standing {
    /// With this machine alone.
    With(u32),
    /// In the handover at this gap, between the machine of that number and the next.
    Between(u32),
}

/// The standing that the marks of an id give it; `None` exactly where they give none.
pub fn standing_of(marks: &[Mark]) -> Option<Standing>
    ensures answer { result ≡ standing_of marks.now }
    ensures found { IfSome result (HasStanding marks.now) }
    ensures only { (standing : Place) → HasStanding marks.now standing → result ≡ Some standing }
{
    standing_by(marks)
}

fn standing_by(marks: &[Mark]) -> Option<Standing>
    ensures { result ≡ standing_of marks.now }
{
    let Some(gap) = gap_named(marks) else {
        return kept_alone(marks);
    };
    if all_among(marks, gap) {
        Some(Standing::Between(gap))
    } else {
        None
    }
}

/// The gap of the first mark that is in one.
fn gap_named(marks: &[Mark]) -> Option<u32>
    ensures { result ≡ gap_named marks.now }
{
    for mark in marks {
        match *mark {
            Mark::Kept(_) => {}
            Mark::Outlet(gap) => return Some(gap),
            Mark::Intake(machine) => return Some(machine.saturating_sub(1)),
        }
    }
    None
}

/// Whether all marks are of the handover at a gap or kept at its upstream machine.
fn all_among(marks: &[Mark], gap: u32) -> bool
    ensures { result ≡ is_all_among gap marks.now }
{
    for mark in marks {
        if !is_among(*mark, gap) {
            return false;
        }
    }
    true
}

fn is_among(mark: Mark, gap: u32) -> bool
    ensures { result ≡ is_among gap mark }
{
    match mark {
        Mark::Kept(machine) => machine == gap,
        Mark::Outlet(machine) => machine == gap,
        Mark::Intake(machine) => u64::from(machine) == u64::from(gap) + 1,
    }
}

/// The machine that keeps the board alone.
fn kept_alone(marks: &[Mark]) -> Option<Standing>
    ensures { result ≡ kept_alone marks.now }
{
    let Some(Mark::Kept(machine)) = marks.first() else {
        return None;
    };
    if all_kept(marks, *machine) {
        Some(Standing::With(*machine))
    } else {
        None
    }
}

/// Whether all marks are of one machine that keeps the board.
fn all_kept(marks: &[Mark], machine: u32) -> bool
    ensures { result ≡ list_all (is_kept_by machine) marks.now }
{
    for mark in marks {
        if !is_kept_by(*mark, machine) {
            return false;
        }
    }
    true
}

fn is_kept_by(mark: Mark, machine: u32) -> bool
    ensures { result ≡ is_kept_by machine mark }
{
    match mark {
        Mark::Kept(other) => other == machine,
        Mark::Outlet(_) | Mark::Intake(_) => false,
    }
}
