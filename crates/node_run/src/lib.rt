//! The run of one machine over TCP: what comes next in it, and what each answer of its ports does.
//!
//! A run is a chain of moves: a call of the ports with its answer, a line of the panel, a message
//! of the supervisor or of the configuration service, the reset of a side, or what was found of a
//! neighbour. `next` says which comes, and a method for each takes its answer.
#![tactic(auto)]

mod after;
mod booked;
mod channel;
mod configuring;
mod due;
mod gone;
mod hearing;
mod held;
mod last_step;
pub mod laws;
mod lines;
mod moves;
mod place;
mod resetting;
mod rules;
mod run;
mod running;
mod show;
mod status;
mod step;
mod way_state;

pub use booked::{BookedStatus, MOST_BOOK_BYTES, run_booked};
pub use running::run_node;
pub use status::NodeStatus;
