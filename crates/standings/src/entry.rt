use crate::mark::Mark;
use board_record::BoardId;

/// A line of the ledger: a mark of a board.
#[derive(Clone, Copy, Debug, PartialEq, Eq)]
pub struct Entry {
    pub id: BoardId,
    pub mark: Mark,
}
