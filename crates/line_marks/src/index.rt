//! Where the records of boards stand: an index from boards to their marks, which follows a line of
//! machines.

ghost use Rattle.std.specs.Prelude.{◌≡◌, ◌≤◌, ℕ, [], IfOk, OnOk, length, map, nat_eq, if◌then◌else◌};
ghost use Rattle.line_step.specs.State.{owned_by};
ghost use Rattle.line_marks.specs.Indexed.{entry_at, indexed, marks_listed, patched};
ghost use Rattle.line_marks.specs.Seats.{own_seat};

use crate::marks::{Marks, patched};
use crate::seat::{Seat, own_seat};
use crate::span::Span;
use board_record::BoardId;
use indexmap::IndexMap;
use line_base::Memory;
use node_core::Node;
use standings::Mark;
use std::alloc::Global;
use std::marker::Model;

/// The boards that have a mark along a line of machines, each with its marks. It is seen as their
/// list.
#[derive(Drop)]
pub struct Index {
    alloc: Global,
    map: IndexMap<BoardId, Marks>,
}

/// Where a board stood on a lane before a line, and where it stands now.
#[derive(Clone, Copy)]
pub struct Moved {
    pub was: Seat,
    pub now: Seat,
}

impl Model for Index {
    ghost use Rattle.line_marks.specs.Indexed.{Entries};

    ghost Value = { Entries };

    ghost view = { λ index. index.map.entries };
}

impl Index {
    /// An index without a board.
    pub fn new(alloc: Global) -> Index
        ensures { result ≡ [] }
    {
        Index {
            alloc,
            map: IndexMap::new(alloc),
        }
    }

    /// The marks of a board; none where it is not in the index.
    #[inline(always)]
    pub fn marks(&self, id: BoardId) -> &[Mark]
        ensures { result.now ≡ marks_listed self.now id }
    {
        match self.map.get(&id) {
            Some(marks) => marks.list(),
            None => &[],
        }
    }

    /// Follows a line on this lane, of which these machines may have stepped, with one board, and
    /// answers where it stood on the lane and where it stands. `Memory` where there is none for the
    /// marks.
    #[inline(never)]
    pub fn follow(
        &mut self,
        lane: u32,
        machines: &[Node],
        span: Span,
        id: BoardId,
    ) -> Result<Moved, Memory>
        requires early { span.first ≤ 64 }
        requires few { length machines.now ≤ 64 }
        ensures was { IfOk result
            (λ moved. moved.was ≡ own_seat lane (marks_listed self.old id)) }
        ensures now { IfOk result
            (λ moved. moved.now
            ≡ own_seat lane (patched span.first span.last (map owned_by machines.now)
            (marks_listed self.old id) id)) }
        ensures entries { OnOk result
            ((other : ℕ)
            → entry_at self.new other
            ≡ (if nat_eq id other then indexed
            (patched span.first span.last (map owned_by machines.now)
            (marks_listed self.old id) id) else entry_at self.old other)) }
    {
        let before = self.marks(id);
        let was = own_seat(lane, before);
        let marks = patched(self.alloc, before, machines, span, id)?;
        let now = own_seat(lane, marks.list());
        self.set(id, marks)?;
        Ok(Moved { was, now })
    }

    /// A board has these marks from now on.
    fn set(&mut self, id: BoardId, marks: Marks) -> Result<(), Memory>
        ensures { OnOk result
            ((other : ℕ)
            → entry_at self.new other
            ≡ (if nat_eq id other then indexed marks else entry_at self.old other)) }
    {
        if marks.list().is_empty() {
            let _gone = self.map.swap_remove(&id);
            return Ok(());
        }
        match self.map.insert(id, marks) {
            Ok(_) => Ok(()),
            Err(_) => Err(Memory),
        }
    }
}
