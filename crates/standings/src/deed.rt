ghost use Rattle.std.specs.Prelude.{◌≡◌, ◌^◌, ◌-◌, ◌<◌};
ghost use Rattle.standings.specs.Deeds.{added, gap_of, made, named, named_beside, taken};

use crate::entry::Entry;
use crate::mark::Mark;
use board_record::BoardId;

/// What a line of a report says of a board's record. A gap has the number of its upstream machine.
#[derive(Clone, Copy, Debug, PartialEq, Eq)]
pub enum Deed {
    /// A new board is at the machine.
    Inserts {
        machine: u32,
        id: BoardId,
    },
    /// A board came from another lane of the machine. No report of one lane tells it.
    Comes {
        machine: u32,
        id: BoardId,
    },
    /// A board was taken from the machine by hand, or went to another lane of it.
    Removes {
        machine: u32,
        id: BoardId,
    },
    /// A new board stands in the place of an old one.
    Replaces {
        machine: u32,
        old: BoardId,
        new: BoardId,
    },
    /// The downstream machine began to take a board.
    Starts {
        gap: u32,
        id: BoardId,
    },
    /// The upstream machine lets a board go.
    Opens {
        gap: u32,
        id: BoardId,
    },
    /// The board stayed at the upstream machine.
    Returns {
        gap: u32,
        id: BoardId,
    },
    /// The board left the upstream machine.
    Leaves {
        gap: u32,
        id: BoardId,
    },
    /// The board was taken out from between the machines: the upstream one gives it up.
    Loses {
        gap: u32,
        id: BoardId,
    },
    /// The board is at the downstream machine.
    Settles {
        gap: u32,
        id: BoardId,
    },
    /// The board didn't come: the downstream machine gives it up.
    Drops {
        gap: u32,
        id: BoardId,
    },
}

impl Deed {
    /// The mark that the deed takes from the ledger.
    pub fn taken(self) -> Option<Entry>
        requires { gap_of self < 2 ^ 32 - 1 }
        ensures { result ≡ taken self }
    {
        let (id, mark) = match self {
            Deed::Inserts { .. } | Deed::Comes { .. } | Deed::Starts { .. } => return None,
            Deed::Removes { machine, id } => (id, Mark::Kept(machine)),
            Deed::Replaces { machine, old, .. } => (old, Mark::Kept(machine)),
            Deed::Opens { gap, id } => (id, Mark::Kept(gap)),
            Deed::Returns { gap, id } => (id, Mark::Outlet(gap)),
            Deed::Leaves { gap, id } => (id, Mark::Outlet(gap)),
            Deed::Loses { gap, id } => (id, Mark::Outlet(gap)),
            Deed::Settles { gap, id } => (id, Mark::Intake(gap + 1)),
            Deed::Drops { gap, id } => (id, Mark::Intake(gap + 1)),
        };
        Some(Entry { id, mark })
    }

    /// The mark that the deed adds to the ledger.
    pub fn added(self) -> Option<Entry>
        requires { gap_of self < 2 ^ 32 - 1 }
        ensures { result ≡ added self }
    {
        let (id, mark) = match self {
            Deed::Removes { .. } | Deed::Leaves { .. } => return None,
            Deed::Loses { .. } | Deed::Drops { .. } => return None,
            Deed::Inserts { machine, id } => (id, Mark::Kept(machine)),
            Deed::Comes { machine, id } => (id, Mark::Kept(machine)),
            Deed::Replaces { machine, new, .. } => (new, Mark::Kept(machine)),
            Deed::Starts { gap, id } => (id, Mark::Intake(gap + 1)),
            Deed::Opens { gap, id } => (id, Mark::Outlet(gap)),
            Deed::Returns { gap, id } => (id, Mark::Kept(gap)),
            Deed::Settles { gap, id } => (id, Mark::Kept(gap + 1)),
        };
        Some(Entry { id, mark })
    }

    /// The id that the deed makes, which no earlier deed may name.
    pub fn made(self) -> Option<BoardId>
        ensures { result ≡ made self }
    {
        match self {
            Deed::Inserts { id, .. } => Some(id),
            Deed::Replaces { new, .. } => Some(new),
            _ => None,
        }
    }

    /// The id that the deed names; of a replacement the new one.
    pub fn named(self) -> BoardId
        ensures { result ≡ named self }
    {
        match self {
            Deed::Inserts { id, .. } | Deed::Removes { id, .. } => id,
            Deed::Comes { id, .. } => id,
            Deed::Replaces { new, .. } => new,
            Deed::Starts { id, .. } | Deed::Opens { id, .. } => id,
            Deed::Returns { id, .. } | Deed::Leaves { id, .. } => id,
            Deed::Loses { id, .. } | Deed::Settles { id, .. } => id,
            Deed::Drops { id, .. } => id,
        }
    }

    /// The old id that a replacement names beside the new one.
    pub fn named_beside(self) -> Option<BoardId>
        ensures { result ≡ named_beside self }
    {
        match self {
            Deed::Replaces { old, .. } => Some(old),
            _ => None,
        }
    }
}
