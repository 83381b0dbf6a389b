//! What running machines tell of their records, read by somebody who keeps a ledger; and what they log,
//! merged in the order of their steps, is a log that nothing is against. There is no code here: each
//! law is the contract of a function without a body of its own.
//!
//! For a reader: specs/Merged, the log of a run, and specs/Right.
#![tactic(auto)]

pub mod laws;
pub mod ledger;
