//! The upstream half of a handover.
//!
//! An outlet offers a board to the downstream machine, lets it go out at a start, and holds its
//! record until the board has left, has come back or was taken out by hand.
#![tactic(auto)]

mod act;
mod breach;
mod close;
mod input;
pub mod laws;
mod offer;
mod outlet;
mod phase;
mod sensor;
mod state;
mod transport;

pub use act::{OutAct, OutDeed, OutSend};
pub use breach::OutBreach;
pub use input::OutInput;
pub use outlet::Outlet;
pub use phase::{OutPhase, Phase};
