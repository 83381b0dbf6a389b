ghost use Rattle.std.specs.Prelude.{◌≡◌, IfOk};

use crate::act::Outputs;
use board_record::{BoardId, Record};
use line_base::Memory;
use std::alloc::Global;
use std::marker::Model;

/// The record of a board on its way from a lane of a machine to another one. A machine alone makes
/// one, as it gives the board (`Node::give`), and another lane of it gets it (`Node::get`): so no
/// record is made up, and none comes twice. Whoever lets it go loses the record.
///
/// The record lies apart, so that an input is small: few inputs have a record, and every input is
/// moved. It is seen as the record.
#[derive(Debug, Drop)]
pub struct Passage {
    board: Box<Record>,
}

impl Model for Passage {
    ghost use Rattle.board_record.specs.declared.record.Record.{Record};

    ghost Value = { Record };

    ghost view = { λ passage. passage.board.value };
}

impl Passage {
    /// Puts a record on its way. `Memory` where there is no room for it.
    pub(crate) fn of(alloc: Global, board: Record) -> Result<Passage, Memory>
        ensures { IfOk result (λ passage. passage ≡ board) }
    {
        match Box::new(alloc, board) {
            Ok(board) => Ok(Passage { board }),
            Err(_) => Err(Memory),
        }
    }

    /// The record, at the end of its way.
    pub(crate) fn into_record(self) -> Record
        ensures { result ≡ self }
    {
        Box::into_inner(self.board)
    }

    /// The board's id.
    pub fn id(&self) -> BoardId
        ensures { result ≡ self.now.id }
    {
        self.board.id
    }
}

/// What a machine did as it gave a board, and the board's record.
#[derive(Debug, Drop)]
pub struct Given {
    pub acts: Outputs,
    pub board: Passage,
}
