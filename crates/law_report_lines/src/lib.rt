//! The lines of a report, and what the types of happenings say of the texts in them.
#![tactic(auto)]

mod proper;

pub use proper::lanes_are_proper;
