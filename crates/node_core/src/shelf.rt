ghost use Rattle.std.specs.Prelude.{◌≡◌, ◌==◌, ◌<◌, [], ◌∷◌, ◌++◌, ◌↔◌, Err, Some, OnOk, OnErr, true, drop, length, position, remove, slice_get, slice_set};
ghost use Rattle.board_record.specs.declared.record.Record.{Record};
ghost use Rattle.board_record.specs.Kept.{is_full_at, with_quality, with_sub};
ghost use Rattle.board_record.specs.declared.sub_boards.SubError.TheVariants as errors;
ghost use Rattle.board_record.specs.SubBoards.{unknown_sub};

use board_record::{BoardId, Kept, Record, SubBoard, SubError};
use line_base::{Memory, Quality, Text};
use std::alloc::Global;
use std::marker::Model;

/// The records that a machine keeps, the front first. It is seen as their list alone; what grows
/// takes its memory itself.
#[derive(Drop)]
pub struct Shelf {
    kept: Kept,
}

impl Model for Shelf {
    ghost use Rattle.std.specs.Prelude.{List};
    ghost use Rattle.board_record.specs.declared.record.Record.{Record};

    ghost Value = { List Record };

    ghost view = { λ shelf. shelf.kept.boards };
}

impl Shelf {
    pub(crate) fn new(alloc: Global) -> Shelf
        ensures { result ≡ [] }
    {
        Shelf {
            kept: Kept::new(alloc),
        }
    }

    #[inline(always)]
    pub(crate) fn push_back(&mut self, board: Record) -> Result<(), Memory>
        ensures { OnOk result (self.new ≡ self.old ++ board ∷ []) }
    {
        self.kept.reserve_one()?;
        self.kept.push_back(board);
        Ok(())
    }

    pub(crate) fn push_front(&mut self, board: Record) -> Result<(), Memory>
        ensures { OnOk result (self.new ≡ board ∷ self.old) }
    {
        self.kept.reserve_one()?;
        self.kept.push_front(board);
        Ok(())
    }

    pub(crate) fn pop_front(&mut self) -> Option<Record>
        ensures front { result ≡ slice_get self.old 0 }
        ensures boards { self.new ≡ drop 1 self.old }
    {
        self.kept.pop_front()
    }

    pub(crate) fn remove(&mut self, place: usize)
        requires { place < length self.old }
        ensures { self.new ≡ remove self.old place }
    {
        let _removed = self.kept.take(place);
    }

    /// The record at a place goes out.
    pub(crate) fn take(&mut self, place: usize) -> Record
        requires { place < length self.old }
        ensures taken { slice_get self.old place ≡ Some result }
        ensures boards { self.new ≡ remove self.old place }
    {
        self.kept.take(place)
    }

    pub(crate) fn replace(&mut self, place: usize, board: Record)
        requires { place < length self.old }
        ensures { self.new ≡ slice_set self.old place board }
    {
        let _replaced = self.kept.replace(place, board);
    }

    pub(crate) fn set_quality(&mut self, place: usize, quality: Quality)
        requires { place < length self.old }
        ensures { self.new ≡ with_quality self.old place quality }
    {
        self.kept.set_quality(place, quality);
    }

    /// Whether the record at a place has no room for a circuit more, with this place of the panel
    /// and this barcode.
    pub(crate) fn is_full_at(&self, place: usize, pos: u32, barcode: &Option<Text>) -> bool
        requires { place < length self.now }
        ensures { result ≡ is_full_at self.now place (unknown_sub pos barcode.now) }
    {
        self.kept.list()[place].subs.is_full_with(pos, barcode)
    }

    /// Adds a circuit to the record at a place.
    pub(crate) fn push_sub(&mut self, place: usize, sub: SubBoard) -> Result<(), SubError>
        requires { place < length self.old }
        ensures full { (result ≡ Err errors.Full) ↔ (is_full_at self.old place sub ≡ true) }
        ensures added { OnOk result (self.new ≡ with_sub self.old place sub) }
        ensures unchanged { OnErr result (self.new ≡ self.old) }
    {
        self.kept.push_sub(place, sub)
    }

    /// The first place with a board of this id.
    pub(crate) fn position_of(&self, id: BoardId) -> Option<usize>
        ensures { result ≡ position (λ (board : Record). board.id == id) self.now }
    {
        self.kept.place_of(id)
    }

    pub(crate) fn list(&self) -> &[Record]
        ensures { result.now ≡ self.now }
    {
        self.kept.list()
    }
}
