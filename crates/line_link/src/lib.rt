//! The link between two neighbouring machines of a line: its two ends, whether it stands, and the
//! texts on their way in each direction.
//!
//! For a reader: what flows in one direction is in specs/Flow, a link and its events in
//! specs/Link.
#![tactic(auto)]

mod flow;
mod flows;
pub mod laws;
mod link;
mod texts;

pub use link::{Connected, Link, MOST_IN_FLIGHT, Sent};
