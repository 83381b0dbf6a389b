//! The checker of a merged log of a line's machines.
//!
//! For a reader: a line of a log is a machine, a turn and a text (specs/LogLine); a log is the
//! list of its lines, which fall into groups, tell deeds, and may have a reason against them
//! (specs/Log); the checker reads them one by one (specs/Checking).
#![tactic(auto)]

mod book;
mod checker;
mod cut;
mod drop_mark;
mod group;
mod kind;
mod known;
pub mod laws;
mod reading;
mod seen;
mod table;
mod turns;
mod unsettled;
mod why;

pub use checker::Checker;
pub use why::{CheckError, CheckWhy, Counts};
