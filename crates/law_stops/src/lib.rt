//! A machine that loses its power: what a `stop` gives it in a script is what a node that begins again
//! has behind its turn 0. There is no code here: the law is the contract of a function without a body.
//!
//! For a reader: specs/Stops.
#![tactic(auto)]

pub mod laws;
