//! The floor under a line: the boards at machines and in gaps, the drives, and what the sensors
//! saw of them.
//!
//! A floor knows nothing of messages or sessions. Machines and gaps are numbered from 1 in
//! downstream direction; gap k lies between machines k and k + 1.
#![tactic(auto)]

mod around;
mod board;
mod floor;
mod gap;
pub mod laws;
mod moves;
mod sensors;
mod station;

pub use board::Board;
pub use floor::Floor;
pub use gap::Gap;
pub use moves::{Move, MoveError, MoveNo};
pub use sensors::Sensors;
