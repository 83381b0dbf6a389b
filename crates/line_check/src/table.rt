ghost use Rattle.std.specs.Prelude.{◌≡◌};
ghost use Rattle.line_check.specs.Listed.{HasNoEmpty};

use crate::drop_mark::drop_mark;
use board_record::BoardId;
use line_base::Memory;
use standings::{Deed, Entry, Mark};
use std::alloc::Global;
use std::collections::BTreeMap;

/// The marks of each board that has one, found by its id. The map is ordered, so that no choice of
/// ids makes a search in it long: who wrote a log is not trusted.
#[derive(Drop)]
pub struct Table {
    alloc: Global,
    marks: BTreeMap<BoardId, Vec<Mark>>,
    ghost no_empty: { HasNoEmpty marks },
}

impl Table {
    ghost use Rattle.std.specs.Prelude.{◌^◌, ◌-◌, ◌<◌, [], ℕ, List, OnOk};
    ghost use Rattle.standings.specs.Marks.{has_id};
    ghost use Rattle.line_check.specs.Log.{count_once};
    ghost use Rattle.line_check.specs.Marks.{added_at, added_by, changed_by, is_some_mark, taken_at, taken_by};
    ghost use Rattle.standings.specs.Deeds.{gap_of};
    ghost use Rattle.line_check.specs.Table.{marks_of};

    /// A table without marks.
    pub fn new(alloc: Global) -> Table
        ensures { (id : ℕ) → marks_of result id ≡ [] }
    {
        Table {
            alloc,
            marks: BTreeMap::new(alloc),
        }
    }

    /// The marks of an id.
    pub fn of(&self, id: BoardId) -> &[Mark]
        ensures { result.now ≡ marks_of self.now id }
    {
        match self.marks.get(&id) {
            Some(marks) => marks.as_slice(),
            None => &[],
        }
    }

    /// Changes the marks as a deed says.
    pub fn change(&mut self, deed: &Deed) -> Result<(), Memory>
        requires { gap_of deed.now < 2 ^ 32 - 1 }
        ensures { OnOk result
            ((id : ℕ) → marks_of self.new id ≡ changed_by deed.now id (marks_of self.old id)) }
    {
        let taken = deed.taken();
        let added = deed.added();
        self.take_some(taken);
        self.add_some(added)
    }

    fn take_some(&mut self, entry: Option<Entry>)
        ensures { (id : ℕ) → marks_of self.new id ≡ taken_by entry id (marks_of self.old id) }
    {
        if let Some(entry) = entry {
            self.take(entry);
        }
    }

    fn add_some(&mut self, entry: Option<Entry>) -> Result<(), Memory>
        ensures { OnOk result
            ((id : ℕ) → marks_of self.new id ≡ added_by entry id (marks_of self.old id)) }
    {
        match entry {
            Some(entry) => self.add(entry),
            None => Ok(()),
        }
    }

    /// Takes a mark of a board away.
    fn take(&mut self, entry: Entry)
        ensures { (id : ℕ) → marks_of self.new id ≡ taken_at entry id (marks_of self.old id) }
    {
        let Some(marks) = self.marks.get_mut(&entry.id) else {
            return;
        };
        drop_mark(marks, entry.mark);
        if marks.is_empty() {
            let _none = self.marks.remove(&entry.id);
        }
    }

    /// Adds a mark of a board.
    fn add(&mut self, entry: Entry) -> Result<(), Memory>
        ensures { OnOk result
            ((id : ℕ) → marks_of self.new id ≡ added_at entry id (marks_of self.old id)) }
    {
        let mut marks = match self.marks.remove(&entry.id) {
            Some(marks) => marks,
            None => Vec::new(self.alloc),
        };
        marks.push(entry.mark)?;
        self.marks.insert(entry.id, marks)?;
        Ok(())
    }

    /// How many boards have a mark.
    pub fn boards(&self) -> usize
        ensures { (ids : List ℕ) → ((id : ℕ) → has_id id ids ≡ is_some_mark (marks_of self.now id))
            → result ≡ count_once ids }
    {
        self.marks.len()
    }
}
