//! Board ids, board records and the ordered lists in which machines keep them.
#![tactic(auto)]

mod id;
mod kept;
mod maker;
mod record;
mod sensed;
mod sub_board;
mod sub_boards;

pub use id::{BadId, BoardId};
pub use kept::Kept;
pub use maker::{IdMaker, IdsUsedUp};
pub use record::Record;
pub use sensed::Sensed;
pub use sub_board::SubBoard;
pub use sub_boards::{MOST_SUBS, SubBoards, SubError};
