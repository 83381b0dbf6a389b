//! How a handover ends, by what a machine saw itself and what its neighbour said.
#![tactic(auto)]

mod intake;
mod outlet;

pub use intake::{InEnd, in_ends};
pub use outlet::{OutEnd, out_ends};
