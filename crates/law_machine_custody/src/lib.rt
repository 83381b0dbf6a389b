//! A machine between its two links: whatever it reads, hears, meets and says in a step, the
//! relation of both links goes on. There is no code here: each law is the contract of a function
//! without a body.
#![tactic(auto)]

pub mod laws;
