//! Twelve link steps: from a state that is announced for a gap and a board, an undisturbed handover
//! ends within twelve link steps of that gap, and before the end one of them can be done; so whoever
//! goes on ends it. There is no code here: each law is the contract of a function without a body.
//!
//! For a reader of what is said: specs/Announced, Undisturbed, Twelve, Play. For a reader of how it is
//! shown: README.md.
#![tactic(auto)]

pub mod laws;
pub mod whoever_goes_on;
