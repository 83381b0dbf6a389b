//! The messages of a link, and the bytes that flow on it: the text of a message is one message of a
//! stream, and what a side hears of a piece are the oldest messages to it, in their order, in whatever
//! pieces the bytes arrive. There is no code here: each law is the contract of a function without a
//! body.
#![tactic(auto)]

pub mod frames;
pub mod laws;
