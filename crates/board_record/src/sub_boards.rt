ghost use Rattle.std.specs.Prelude.{◌≡◌, ◌==◌, ◌↔◌, ◌<◌, ◌≤◌, ◌*◌, ◌++◌, ◌∷◌, [], IfOk, OnOk, OnErr, Err, length, true};
ghost use Rattle.board_record.specs.SubBoards.{AreSubBoards, are_too_many, is_full, size_of, unknown_sub, sub_sizes};
ghost use Rattle.board_record.specs.declared.sub_boards.SubError.TheVariants as errors;

use crate::sub_board::{SubBoard, element_size};
use line_base::{Memory, Text};
use std::alloc::Global;
use std::marker::Model;
use std::rc::Rc;

/// The most sub boards that a board may have.
pub const MOST_SUBS: usize = 256;

/// The most bytes that a board's sub boards may take in a message.
const MOST_BYTES: usize = 24576;

/// The bytes of the start and the end of the element around them.
const FRAME_BYTES: usize = 23;

/// A board's sub boards. Without any it takes no memory, and an equal list shares it: what is known
/// of a board is moved many times, and copied at each offer.
///
/// It is seen as the list.
#[derive(Debug, Drop)]
pub struct SubBoards {
    subs: Option<Rc<Vec<SubBoard>>>,
}

impl Model for SubBoards {
    ghost use Rattle.std.specs.Prelude.{List};
    ghost use Rattle.board_record.specs.declared.sub_board.SubBoard.{SubBoard};

    ghost Value = { List SubBoard };

    ghost use Rattle.board_record.specs.SubBoards.{AreSubBoards};
    ghost use Rattle.board_record.specs.Shared.{shared_list};

    ghost view = { shared_list };

    ghost invariant = { λ list. AreSubBoards (shared_list list) };
}

/// Why a sub board isn't taken.
#[derive(Clone, Copy, Debug, PartialEq, Eq)]
pub enum SubError {
    /// There are 256 already, or all would take more than 24,576 bytes in a message.
    Full,
    Memory,
}

impl SubBoards {
    /// No sub boards.
    pub fn new() -> SubBoards
        ensures { result ≡ [] }
    {
        SubBoards { subs: None }
    }

    /// The list of these sub boards. `Full` exactly where there are more than 256, or where they would
    /// take more than 24,576 bytes in a message.
    pub fn of(alloc: Global, subs: Vec<SubBoard>) -> Result<SubBoards, SubError>
        ensures full { (result ≡ Err errors.Full) ↔ (are_too_many subs.items ≡ true) }
        ensures list { IfOk result (λ list. list ≡ subs.items) }
    {
        if are_too_many(subs.as_slice()) {
            return Err(SubError::Full);
        }
        match put_aside(alloc, subs) {
            Ok(subs) => Ok(subs),
            Err(Memory) => Err(SubError::Memory),
        }
    }

    /// The sub boards in order.
    pub fn list(&self) -> &[SubBoard]
        ensures list { result.now ≡ self.now }
        ensures within { AreSubBoards self.now }
    {
        match &self.subs {
            Some(subs) => subs.as_slice(),
            None => &[],
        }
    }

    /// Whether there are none.
    pub fn is_empty(&self) -> bool
        ensures { result ≡ (length self.now == 0) }
    {
        self.list().is_empty()
    }

    /// Whether one sub board more isn't taken: there are 256 already, or all would take more than
    /// 24,576 bytes in a message.
    pub fn is_full_for(&self, sub: &SubBoard) -> bool
        ensures { result ≡ is_full self.now sub.now }
    {
        let list = self.list();
        list.len() >= MOST_SUBS || size_with(list, sub) > MOST_BYTES
    }

    /// The same of a sub board with this place and this barcode, of which it isn't known whether it
    /// is good.
    pub fn is_full_with(&self, pos: u32, barcode: &Option<Text>) -> bool
        ensures { result ≡ is_full self.now (unknown_sub pos barcode.now) }
    {
        let list = self.list();
        list.len() >= MOST_SUBS || size_behind(list, pos, barcode) > MOST_BYTES
    }

    /// Takes one sub board more, behind the others. `Full` exactly where there are 256 already, or
    /// where all would take more than 24,576 bytes in a message; then, and where memory is wanting,
    /// the list stays as it was.
    pub fn push(&mut self, alloc: Global, sub: SubBoard) -> Result<(), SubError>
        ensures full { (result ≡ Err errors.Full) ↔ (is_full self.old sub ≡ true) }
        ensures pushed { OnOk result (self.new ≡ self.old ++ sub ∷ []) }
        ensures unchanged { OnErr result (self.new ≡ self.old) }
    {
        if self.is_full_for(&sub) {
            return Err(SubError::Full);
        }
        match longer(alloc, self.list(), sub) {
            Ok(subs) => {
                *self = subs;
                Ok(())
            }
            Err(Memory) => Err(SubError::Memory),
        }
    }

    /// An equal list, which shares the sub boards. `Memory` where they are shared too often.
    pub fn copy(&self) -> Result<SubBoards, Memory>
        ensures { IfOk result (λ copy. copy ≡ self.now) }
    {
        match &self.subs {
            Some(subs) => Ok(SubBoards {
                subs: Some(shared(subs)?),
            }),
            None => Ok(SubBoards { subs: None }),
        }
    }
}

fn shared(subs: &Rc<Vec<SubBoard>>) -> Result<Rc<Vec<SubBoard>>, Memory>
    ensures { IfOk result (λ copy. copy.value ≡ subs.now.value) }
{
    match subs.clone() {
        Ok(copy) => Ok(copy),
        Err(_) => Err(Memory),
    }
}

/// How many bytes a list takes in a message with one sub board more.
fn size_with(subs: &[SubBoard], sub: &SubBoard) -> usize
    requires { length subs.now < 256 }
    ensures { result ≡ size_of (subs.now ++ sub.now ∷ []) }
{
    FRAME_BYTES + sizes(subs) + sub.size()
}

/// How many bytes a list takes in a message with a sub board more that has this place and this
/// barcode.
fn size_behind(subs: &[SubBoard], pos: u32, barcode: &Option<Text>) -> usize
    requires { length subs.now < 256 }
    ensures { result ≡ size_of (subs.now ++ unknown_sub pos barcode.now ∷ []) }
{
    FRAME_BYTES + sizes(subs) + element_size(pos, barcode)
}

fn sizes(subs: &[SubBoard]) -> usize
    requires { length subs.now ≤ 256 }
    ensures size { result ≡ sub_sizes subs.now }
    ensures bounded { result ≤ 6209 * length subs.now }
{
    let mut size = 0;
    for sub in subs {
        size += sub.size();
    }
    size
}

/// A list with copies of these sub boards and one more.
fn longer(alloc: Global, subs: &[SubBoard], sub: SubBoard) -> Result<SubBoards, Memory>
    requires { AreSubBoards (subs.now ++ sub ∷ []) }
    ensures { IfOk result (λ list. list ≡ subs.now ++ sub ∷ []) }
{
    let mut copies = copied(alloc, subs)?;
    copies.push(sub)?;
    put_aside(alloc, copies)
}

/// The list of sub boards that aren't too many; without any it needs no memory.
fn put_aside(alloc: Global, subs: Vec<SubBoard>) -> Result<SubBoards, Memory>
    requires { AreSubBoards subs.items }
    ensures { IfOk result (λ list. list ≡ subs.items) }
{
    if subs.is_empty() {
        return Ok(SubBoards { subs: None });
    }
    let subs = Rc::new(alloc, subs)?;
    Ok(SubBoards { subs: Some(subs) })
}

/// Whether they are more than 256, or would take more than 24,576 bytes in a message.
fn are_too_many(subs: &[SubBoard]) -> bool
    ensures { result ≡ are_too_many subs.now }
{
    subs.len() > MOST_SUBS || size_of(subs) > MOST_BYTES
}

/// How many bytes a list takes in a message.
fn size_of(subs: &[SubBoard]) -> usize
    requires { length subs.now ≤ 256 }
    ensures { result ≡ size_of subs.now }
{
    if subs.is_empty() {
        return 0;
    }
    FRAME_BYTES + sizes(subs)
}

fn copied(alloc: Global, subs: &[SubBoard]) -> Result<Vec<SubBoard>, Memory>
    ensures { IfOk result (λ copies. copies.items ≡ subs.now) }
{
    let mut copies = Vec::new(alloc);
    for sub in subs {
        copies.push(sub.copy(alloc)?)?;
    }
    Ok(copies)
}

impl PartialEq for SubBoards {
    ghost use Rattle.std.specs.Cmp.Lexicographic.{pointwise, lists_per};
    ghost use Rattle.board_record.specs.contracts.sub_board.SubBoardPartialEq.TheImpl as sub_equal;
    ghost use Rattle.board_record.specs.contracts.sub_board.SubBoardPartialEq.TheImpl.Laws.{laws-law};

    ghost eq = { pointwise (sub_equal.ghosts).eq };

    ghost laws = { lists_per laws-law };

    fn eq(&self, other: &SubBoards) -> bool {
        self.list() == other.list()
    }
}

impl Eq for SubBoards {
    ghost use Rattle.std.specs.Cmp.Lexicographic.{lists_equiv};
    ghost use Rattle.board_record.specs.contracts.sub_board.SubBoardEq.TheImpl.Laws.{laws-law};

    ghost laws = { lists_equiv laws-law };
}
