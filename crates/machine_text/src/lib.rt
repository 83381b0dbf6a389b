//! A machine behind its port by text: a line of a panel makes its step, and the lines of a log tell
//! what it did.
#![tactic(auto)]

pub mod laws;
mod line;
mod log;

pub use line::{LineNotDone, NotAsked, do_line};
pub use log::write_log;
