//! The log that a restart book tells: the lines of each of its entries' steps, which a node that was
//! stopped may have logged, or not.
#![tactic(auto)]

mod telling;

pub use telling::{LogError, tell_book};
