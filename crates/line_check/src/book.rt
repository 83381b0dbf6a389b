ghost use Rattle.std.specs.Prelude.{◌≡◌};

use crate::reading::Reading;
use crate::seen::see;
use crate::table::Table;
use crate::unsettled::settle;
use board_record::BoardId;
use line_base::Memory;
use standings::{Deed, Entry, has_mark};
use std::alloc::Global;
use std::collections::BTreeSet;

/// The ledger of the deeds so far.
#[derive(Drop)]
pub struct Book {
    table: Table,
    /// The ids that were named: each is known for good.
    seen: BTreeSet<BoardId>,
    /// The ids that have marks and no standing.
    unsettled: BTreeSet<BoardId>,
}

impl Book {
    ghost use Rattle.std.specs.Prelude.{◌^◌, ◌-◌, ◌<◌, ℕ, Option, OnOk};
    ghost use Rattle.standings.specs.Deeds.{gap_of};
    ghost use Rattle.standings.specs.Ledger.{Ledger, empty_ledger, is_found, is_legal, is_missing, is_unseen, ledger_after, ledger_after_all};
    ghost use Rattle.line_check.specs.Log.{all_stand, boards_in, deeds_in};
    ghost use Rattle.line_check.specs.Within.{IsNear};
    ghost use Rattle.line_check.specs.Book.{IsBook};

    /// A book before the first deed.
    pub fn new(alloc: Global) -> Book
        ensures { IsBook empty_ledger result }
    {
        Book {
            table: Table::new(alloc),
            seen: BTreeSet::new(alloc),
            unsettled: BTreeSet::new(alloc),
        }
    }

    /// Whether a deed is legal in the ledger.
    pub fn is_legal(&self, deed: &Deed) -> bool
        requires { gap_of deed.now < 2 ^ 32 - 1 }
        ensures { (ledger : Ledger) → IsBook ledger self.now → result ≡ is_legal ledger deed.now }
    {
        let taken = deed.taken();
        let added = deed.added();
        let made = deed.made();
        self.is_found(taken) && self.is_missing(added) && self.is_unseen(made)
    }

    fn is_found(&self, entry: Option<Entry>) -> bool
        ensures { (ledger : Ledger) → IsBook ledger self.now
            → result ≡ is_found entry ledger.marks }
    {
        match entry {
            Some(entry) => has_mark(self.table.of(entry.id), entry.mark),
            None => true,
        }
    }

    fn is_missing(&self, entry: Option<Entry>) -> bool
        ensures { (ledger : Ledger) → IsBook ledger self.now
            → result ≡ is_missing entry ledger.marks }
    {
        match entry {
            Some(entry) => !has_mark(self.table.of(entry.id), entry.mark),
            None => true,
        }
    }

    fn is_unseen(&self, id: Option<BoardId>) -> bool
        ensures { (ledger : Ledger) → IsBook ledger self.now → result ≡ is_unseen id ledger.seen }
    {
        match id {
            Some(id) => !self.seen.contains(&id),
            None => true,
        }
    }

    /// Notes the deed that a line says, if it says one.
    pub fn note_said(&mut self, said: &Reading) -> Result<(), Memory>
        requires { IsNear said.now }
        ensures { OnOk result ((ledger : Ledger) → IsBook ledger self.old
            → IsBook (ledger_after_all ledger (deeds_in said.now)) self.new) }
    {
        match said {
            Reading::Does(deed) => self.note(deed),
            Reading::Nothing | Reading::Bad => Ok(()),
        }
    }

    /// Notes a deed.
    fn note(&mut self, deed: &Deed) -> Result<(), Memory>
        requires { gap_of deed.now < 2 ^ 32 - 1 }
        ensures { OnOk result ((ledger : Ledger) → IsBook ledger self.old
            → IsBook (ledger_after ledger deed.now) self.new) }
    {
        self.table.change(deed)?;
        see(&mut self.seen, deed)?;
        settle(&mut self.unsettled, &self.table, deed)
    }

    /// Whether each board with a mark has a standing.
    pub fn all_stand(&self) -> bool
        ensures { (ledger : Ledger) → IsBook ledger self.now → result ≡ all_stand ledger.marks }
    {
        self.unsettled.is_empty()
    }

    /// How many boards have a mark.
    pub fn boards(&self) -> usize
        ensures { (ledger : Ledger) → IsBook ledger self.now → result ≡ boards_in ledger.marks }
    {
        self.table.boards()
    }
}
