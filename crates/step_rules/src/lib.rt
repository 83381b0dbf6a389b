//! The pieces of which a machine's step is made, whatever it reads, hears, meets and announces; and
//! that a machine says a text on the connection of a side only while that side has one. There is no
//! code here: each law is the contract of a function without a body.
//!
//! For a reader: specs/Made; specs/Opened; specs/Spoken.
#![tactic(auto)]

pub mod laws;
pub mod spoken;
