ghost use Rattle.std.specs.Prelude.{◌≡◌, ◌++◌, IfSome, OnOk, None, false};
ghost use Rattle.node_core.specs.Sides.{end_at};
ghost use Rattle.node_core.specs.Boards.{IsFirstAt, first_kept, is_kept, takes_sub, inserts, removes, replaces, marks, adds_sub, faults, gets, gives, wills};
ghost use Rattle.board_record.specs.declared.sub_board.SubBoard.{SubBoard as Sub};
ghost use Rattle.board_record.specs.SubBoards.{unknown_sub};

use crate::act::{Act, Outputs, Setting};
use crate::desk::Desk;
use crate::lane::Body;
use crate::passage::Passage;
use crate::shelf::Shelf;
use board_record::{BoardId, Record, SubBoard, SubError};
use handover_in::InInput;
use handover_out::OutInput;
use line_base::{Memory, Quality, Side, Text};

/// The place of the first record of this id.
#[tactic(auto, using(crate::proofs::First::position_first, crate::proofs::First::position_none, crate::proofs::First::position_roomless, crate::proofs::First::position_missing))]
fn place_of(kept: &Shelf, id: BoardId) -> Option<usize>
    ensures first { IfSome result (IsFirstAt id kept.now) }
    ensures none { result ≡ None → is_kept id kept.now ≡ false }
    ensures roomless { result ≡ None → (sub : Sub) → takes_sub id sub kept.now ≡ false }
    ensures missing { result ≡ None → first_kept id kept.now ≡ None }
{
    kept.position_of(id)
}

impl Body {
    /// Whether a record of this id is kept.
    pub(crate) fn keeps(&self, id: BoardId) -> bool
        ensures { result ≡ is_kept id self.now.kept }
    {
        match place_of(&self.kept, id) {
            Some(_) => true,
            None => false,
        }
    }

    /// A board is put in at the back.
    pub(crate) fn insert(
        &mut self,
        desk: &Desk,
        id: BoardId,
        barcode: Option<Text>,
        to: &mut Outputs,
    ) -> Result<(), Memory>
        ensures body { OnOk result (self.new ≡ (inserts desk.now id barcode self.old).body) }
        ensures acts { OnOk result (to.new ≡ to.old ++ (inserts desk.now id barcode self.old).acts) }
    {
        let name = desk.name().copy(desk.alloc())?;
        self.kept.push_back(Record::plain(id, name, barcode))?;
        to.push(Act::Inserts(id))
    }

    /// A board is taken out.
    pub(crate) fn remove(&mut self, id: BoardId, to: &mut Outputs) -> Result<(), Memory>
        ensures body { OnOk result (self.new ≡ (removes id self.old).body) }
        ensures acts { OnOk result (to.new ≡ to.old ++ (removes id self.old).acts) }
    {
        match place_of(&self.kept, id) {
            Some(place) => {
                self.kept.remove(place);
                to.push(Act::Removes(id))
            }
            None => Ok(()),
        }
    }

    /// A board goes to another lane; its record is put into the slot.
    pub(crate) fn give(
        &mut self,
        id: BoardId,
        lane: u32,
        desk: &Desk,
        slot: &mut Option<Passage>,
        to: &mut Outputs,
    ) -> Result<(), Memory>
        ensures body { OnOk result (self.new ≡ (gives id lane self.old).body) }
        ensures acts { OnOk result (to.new ≡ to.old ++ (gives id lane self.old).acts) }
        ensures board { OnOk result (slot.new ≡ first_kept id self.old.kept) }
    {
        match place_of(&self.kept, id) {
            Some(place) => {
                *slot = Some(Passage::of(desk.alloc(), self.kept.take(place))?);
                to.push(Act::Gives { id, to: lane })
            }
            None => {
                *slot = None;
                Ok(())
            }
        }
    }

    /// A board comes from another lane, to the back.
    pub(crate) fn get(&mut self, board: Passage, to: &mut Outputs) -> Result<(), Memory>
        ensures body { OnOk result (self.new ≡ (gets board self.old).body) }
        ensures acts { OnOk result (to.new ≡ to.old ++ (gets board self.old).acts) }
    {
        let id = board.id();
        self.kept.push_back(board.into_record())?;
        to.push(Act::Gets { id })
    }

    /// Another board comes into the place of a board.
    pub(crate) fn replace(
        &mut self,
        desk: &Desk,
        old: BoardId,
        new: BoardId,
        to: &mut Outputs,
    ) -> Result<(), Memory>
        ensures body { OnOk result (self.new ≡ (replaces desk.now old new self.old).body) }
        ensures acts { OnOk result (to.new ≡ to.old ++ (replaces desk.now old new self.old).acts) }
    {
        match place_of(&self.kept, old) {
            Some(place) => {
                let name = desk.name().copy(desk.alloc())?;
                self.kept.replace(place, Record::plain(new, name, None));
                to.push(Act::Replaces(old, new))
            }
            None => Ok(()),
        }
    }

    /// A board is known to be good or failed.
    pub(crate) fn mark(
        &mut self,
        id: BoardId,
        quality: Quality,
        to: &mut Outputs,
    ) -> Result<(), Memory>
        ensures body { OnOk result (self.new ≡ (marks id quality self.old).body) }
        ensures acts { OnOk result (to.new ≡ to.old ++ (marks id quality self.old).acts) }
    {
        match place_of(&self.kept, id) {
            Some(place) => {
                self.kept.set_quality(place, quality);
                to.push(Act::Marks(id, quality))
            }
            None => Ok(()),
        }
    }

    /// Whether the first record of an id has room for a circuit more, with this place of the panel
    /// and this barcode.
    pub(crate) fn takes_sub(&self, id: BoardId, pos: u32, barcode: &Option<Text>) -> bool
        ensures { result ≡ takes_sub id (unknown_sub pos barcode.now) self.now.kept }
    {
        match place_of(&self.kept, id) {
            Some(place) => !self.kept.is_full_at(place, pos, barcode),
            None => false,
        }
    }

    /// A board, a panel, has a circuit more. Nothing where its record has no room for it.
    pub(crate) fn add_sub(
        &mut self,
        id: BoardId,
        sub: SubBoard,
        to: &mut Outputs,
    ) -> Result<(), Memory>
        ensures body { OnOk result (self.new ≡ (adds_sub id sub self.old).body) }
        ensures acts { OnOk result (to.new ≡ to.old ++ (adds_sub id sub self.old).acts) }
    {
        let pos = sub.pos;
        match place_of(&self.kept, id) {
            Some(place) => match self.kept.push_sub(place, sub) {
                Ok(()) => to.push(Act::Subs { id, pos }),
                Err(SubError::Full) => Ok(()),
                Err(SubError::Memory) => Err(Memory),
            },
            None => Ok(()),
        }
    }

    /// The drive of a side fails.
    pub(crate) fn fault(&mut self, desk: &Desk, side: Side, to: &mut Outputs) -> Result<(), Memory>
        ensures body { OnOk result (self.new ≡ (faults desk.now side self.old).body) }
        ensures acts { OnOk result (to.new ≡ to.old ++ (faults desk.now side self.old).acts) }
    {
        match side {
            Side::Entry => self.at_intake(desk, InInput::Fault, to),
            Side::Exit => self.at_outlet(desk, OutInput::Fault, to),
        }
    }

    /// Whether the machine is willing to hand boards over at a side.
    pub(crate) fn is_willing(&self, side: Side) -> bool
        ensures { result ≡ (end_at side self.now).willing }
    {
        match side {
            Side::Entry => self.entry.willing,
            Side::Exit => self.exit.willing,
        }
    }

    /// The machine's will at a side changes.
    pub(crate) fn will(&mut self, side: Side, on: bool, to: &mut Outputs) -> Result<(), Memory>
        ensures body { OnOk result (self.new ≡ (wills side on self.old).body) }
        ensures acts { OnOk result (to.new ≡ to.old ++ (wills side on self.old).acts) }
    {
        match side {
            Side::Entry => self.entry.willing = on,
            Side::Exit => self.exit.willing = on,
        }
        to.push(Act::Sets(Setting::Will(side, on)))
    }
}
