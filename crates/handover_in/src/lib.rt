//! The downstream half of a handover.
//!
//! An intake hears of an offered board, starts its transport, and holds its record until its own
//! sensors and the upstream machine's word say that the board came or that it didn't.
#![tactic(auto)]

mod act;
mod breach;
mod close;
mod finish;
mod input;
mod intake;
pub mod laws;
mod offer;
mod phase;
mod sensor;
mod state;

pub use act::{InAct, InDeed, InSend};
pub use breach::InBreach;
pub use input::InInput;
pub use intake::Intake;
pub use phase::{InPhase, Phase};
pub use sensor::own_after;
