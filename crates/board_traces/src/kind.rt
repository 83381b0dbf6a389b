ghost use Rattle.std.specs.Prelude.{◌≡◌, option_map};
ghost use Rattle.standings.specs.Deeds.{gap_of};
ghost use Rattle.line_check.specs.LogLine.{entry_deed, entry_deed_of, exit_deed, exit_deed_of, kind_of};
ghost use Rattle.board_traces.specs.Reading.{entry_as, exit_as, kind_as};

use board_record::BoardId;
use standings::Deed;

/// A kind of deed.
#[derive(Clone, Copy, Debug, PartialEq, Eq)]
pub enum Kind {
    Inserts,
    Removes,
    Replaces,
    AtEntry(EntryDeed),
    AtExit(ExitDeed),
}

/// A kind of deed at the gap before a machine.
#[derive(Clone, Copy, Debug, PartialEq, Eq)]
pub enum EntryDeed {
    Starts,
    Settles,
    Drops,
}

/// A kind of deed at the gap after a machine.
#[derive(Clone, Copy, Debug, PartialEq, Eq)]
pub enum ExitDeed {
    Opens,
    Leaves,
    Returns,
    Loses,
}

/// The kind of deed whose first word this is.
pub fn kind_of(word: &[u8]) -> Option<Kind>
    ensures { option_map kind_as result ≡ kind_of word.now }
{
    if word == &b"insert"[..] {
        return Some(Kind::Inserts);
    }
    if word == &b"remove"[..] {
        return Some(Kind::Removes);
    }
    if word == &b"replace"[..] {
        return Some(Kind::Replaces);
    }
    match entry_deed_of(word) {
        Some(kind) => Some(Kind::AtEntry(kind)),
        None => match exit_deed_of(word) {
            Some(kind) => Some(Kind::AtExit(kind)),
            None => None,
        },
    }
}

fn entry_deed_of(word: &[u8]) -> Option<EntryDeed>
    ensures { option_map entry_as result ≡ entry_deed_of word.now }
{
    if word == &b"starts"[..] {
        return Some(EntryDeed::Starts);
    }
    if word == &b"settles"[..] {
        return Some(EntryDeed::Settles);
    }
    if word == &b"drops"[..] {
        return Some(EntryDeed::Drops);
    }
    None
}

fn exit_deed_of(word: &[u8]) -> Option<ExitDeed>
    ensures { option_map exit_as result ≡ exit_deed_of word.now }
{
    if word == &b"opens"[..] {
        return Some(ExitDeed::Opens);
    }
    if word == &b"leaves"[..] {
        return Some(ExitDeed::Leaves);
    }
    if word == &b"returns"[..] {
        return Some(ExitDeed::Returns);
    }
    if word == &b"loses"[..] {
        return Some(ExitDeed::Loses);
    }
    None
}

impl EntryDeed {
    /// The deed of this kind at a gap.
    pub fn at(self, gap: u32, id: BoardId) -> Deed
        ensures answer { result ≡ entry_deed (entry_as self) gap id }
        ensures at { gap_of result ≡ gap }
    {
        match self {
            EntryDeed::Starts => Deed::Starts { gap, id },
            EntryDeed::Settles => Deed::Settles { gap, id },
            EntryDeed::Drops => Deed::Drops { gap, id },
        }
    }
}

impl ExitDeed {
    /// The deed of this kind at a gap.
    pub fn at(self, gap: u32, id: BoardId) -> Deed
        ensures answer { result ≡ exit_deed (exit_as self) gap id }
        ensures at { gap_of result ≡ gap }
    {
        match self {
            ExitDeed::Opens => Deed::Opens { gap, id },
            ExitDeed::Leaves => Deed::Leaves { gap, id },
            ExitDeed::Returns => Deed::Returns { gap, id },
            ExitDeed::Loses => Deed::Loses { gap, id },
        }
    }
}
