//! The supervisor's replay: who reads what a line's machines tell their supervisor, and nothing
//! else, knows where each board is. There is no code here: each law is the contract of a function
//! without a body.
//!
//! For a reader: specs/Replay, and specs/Along for the same a line at a time.
#![tactic(auto)]

pub mod laws;
