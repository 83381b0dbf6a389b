//! How a call of the program `line` ends, and the pieces in which it reads and writes.
#![tactic(auto)]

mod pieces;
mod status;

pub use pieces::{PIECE_BYTES, front, push_full};
pub use status::{InputWhy, Status};
