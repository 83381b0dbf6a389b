//! The machines of one lane of a line, with the links between them and the floor under them, and
//! what one line of a script does to them.
//!
//! What a line of the script does is defined in `line_step`, what it tells in `line_report`.
//! Links, floor and acts are in `line_acts`.
#![tactic(auto)]

mod reasons;
mod state;
mod stepping;
mod steps;

pub use state::State;
pub use stepping::Gave;
