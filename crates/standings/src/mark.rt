ghost use Rattle.std.specs.Prelude.{◌≡◌};
ghost use Rattle.standings.specs.Marks.{has_mark, is_same_mark};

/// That a machine, whose number it has, has the record of a board.
#[derive(Clone, Copy, Debug, PartialEq, Eq)]
pub enum Mark {
    /// The machine keeps it.
    Kept(u32),
    /// The machine's outlet holds it: the board is on its way out, in the gap of that number.
    Outlet(u32),
    /// The machine's intake holds it: the board is on its way in, in the gap before the machine.
    Intake(u32),
}

/// Whether a mark is among others.
pub fn has_mark(marks: &[Mark], mark: Mark) -> bool
    ensures { result ≡ has_mark mark marks.now }
{
    for other in marks {
        if is_same_mark(*other, mark) {
            return true;
        }
    }
    false
}

fn is_same_mark(one: Mark, other: Mark) -> bool
    ensures { result ≡ is_same_mark one other }
{
    match (one, other) {
        (Mark::Kept(one), Mark::Kept(other)) => one == other,
        (Mark::Outlet(one), Mark::Outlet(other)) => one == other,
        (Mark::Intake(one), Mark::Intake(other)) => one == other,
        (Mark::Kept(_), _) | (Mark::Outlet(_), _) | (Mark::Intake(_), _) => false,
    }
}
