//! The two ends of a board's way by the signals of IPC-SMEMA-9851.
//!
//! The machine that gives a board has the signals Board Available and Failed Board Available, the
//! machine that takes it has Machine Ready. A signal has a level, on or off; an edge is a change
//! of level. Each call says what the machine does, and answers the edges that this makes.
#![tactic(auto)]

mod giver;
pub mod laws;
mod levels;
mod taker;

pub use giver::Giver;
pub use levels::{Edges, Levels};
pub use taker::Taker;
