//! A script that is made from a number, line by line, and the fold of a text.
#![tactic(auto)]

mod fold;
mod lines;
mod script;

pub use fold::folded;
pub use script::MadeScript;
