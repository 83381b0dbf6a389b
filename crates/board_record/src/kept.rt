ghost use Rattle.std.specs.Prelude.{◌≡◌, ◌↔◌, ◌==◌, ◌+◌, ◌-◌, ◌<◌, ◌≤◌, [], ◌∷◌, ◌++◌, Err, Some, OnOk, OnErr, true, drop, length, position, remove, slice_get, slice_set, vec_capacity, vec_len};
ghost use Rattle.board_record.specs.declared.record.Record.{Record};
ghost use Rattle.board_record.specs.Kept.{Shelf, is_full_at, with_quality, with_sub};
ghost use Rattle.board_record.specs.declared.sub_boards.SubError.TheVariants as errors;

use crate::id::BoardId;
use crate::record::Record;
use crate::sub_board::SubBoard;
use crate::sub_boards::SubError;
use line_base::{Memory, Quality};
use std::alloc::Global;
use std::marker::Model;
use std::mem;

/// The records with which a machine stands, the front first.
///
/// It is seen as the list of records, and beside it `spare`, for how many more there is room.
#[derive(Debug, Drop)]
pub struct Kept {
    boards: Vec<Record>,
}

impl Model for Kept {
    ghost Value = { Shelf };

    ghost view = { λ kept.
        record {
          boards = kept.boards.items;
          spare = vec_capacity kept.boards - vec_len kept.boards;
        } };
}

impl Kept {
    /// No records yet.
    pub fn new(alloc: Global) -> Kept
        ensures { result.boards ≡ [] }
    {
        Kept {
            boards: Vec::new(alloc),
        }
    }

    /// Makes room for one more record, or leaves all as it was where memory is wanting.
    pub fn reserve_one(&mut self) -> Result<(), Memory>
        ensures same { self.new.boards ≡ self.old.boards }
        ensures room { OnOk result (0 < self.new.spare) }
        ensures kept { self.old.spare ≤ self.new.spare }
        ensures memory { OnErr result (self.new ≡ self.old) }
    {
        match self.boards.reserve(1) {
            Ok(()) => Ok(()),
            Err(_) => Err(Memory),
        }
    }

    /// Puts a record at the back.
    pub fn push_back(&mut self, board: Record)
        requires { 0 < self.old.spare }
        ensures boards { self.new.boards ≡ self.old.boards ++ board ∷ [] }
        ensures spare { self.old.spare ≤ self.new.spare + 1 }
    {
        self.boards.push(board).unwrap()
    }

    /// Puts a record at the front.
    pub fn push_front(&mut self, board: Record)
        requires { 0 < self.old.spare }
        ensures boards { self.new.boards ≡ board ∷ self.old.boards }
        ensures spare { self.old.spare ≤ self.new.spare + 1 }
    {
        self.boards.insert(0, board).unwrap()
    }

    /// Takes the front record out; `None` exactly where there is none.
    pub fn pop_front(&mut self) -> Option<Record>
        ensures front { result ≡ slice_get self.old.boards 0 }
        ensures boards { self.new.boards ≡ drop 1 self.old.boards }
        ensures spare { self.old.spare ≤ self.new.spare }
    {
        if self.boards.is_empty() {
            return None;
        }
        Some(self.boards.remove(0))
    }

    /// Takes out the record at a place.
    pub fn take(&mut self, place: usize) -> Record
        requires { place < length self.old.boards }
        ensures taken { slice_get self.old.boards place ≡ Some result }
        ensures boards { self.new.boards ≡ remove self.old.boards place }
        ensures spare { self.old.spare ≤ self.new.spare }
    {
        self.boards.remove(place)
    }

    /// Puts a record in the place of another, which it answers.
    pub fn replace(&mut self, place: usize, board: Record) -> Record
        requires { place < length self.old.boards }
        ensures replaced { slice_get self.old.boards place ≡ Some result }
        ensures boards { self.new.boards ≡ slice_set self.old.boards place board }
        ensures spare { self.new.spare ≡ self.old.spare }
    {
        mem::replace(&mut self.boards[place], board)
    }

    /// Changes the quality of the record at a place, and nothing else.
    pub fn set_quality(&mut self, place: usize, quality: Quality)
        requires { place < length self.old.boards }
        ensures boards { self.new.boards ≡ with_quality self.old.boards place quality }
        ensures spare { self.new.spare ≡ self.old.spare }
    {
        self.boards[place].quality = quality;
    }

    /// Gives the record at a place one sub board more, behind its others, and changes nothing else.
    /// `Full` exactly where it has 256 already, or where all would take more than 24,576 bytes in a
    /// message; then, and where memory is wanting, all stays as it was.
    pub fn push_sub(&mut self, place: usize, sub: SubBoard) -> Result<(), SubError>
        requires { place < length self.old.boards }
        ensures full { (result ≡ Err errors.Full) ↔ (is_full_at self.old.boards place sub ≡ true) }
        ensures pushed { OnOk result (self.new.boards ≡ with_sub self.old.boards place sub) }
        ensures unchanged { OnErr result (self.new.boards ≡ self.old.boards) }
        ensures spare { self.new.spare ≡ self.old.spare }
    {
        let alloc = *self.boards.allocator();
        self.boards[place].subs.push(alloc, sub)
    }

    /// The first place with a board of this id; `None` exactly where there is none.
    pub fn place_of(&self, id: BoardId) -> Option<usize>
        ensures { result ≡ position (λ (board : Record). board.id == id) self.now.boards }
    {
        self.boards.iter().position(|board| board.id == id)
    }

    /// The records, the front first.
    pub fn list(&self) -> &[Record]
        ensures { result.now ≡ self.now.boards }
    {
        self.boards.as_slice()
    }
}
