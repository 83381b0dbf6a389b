//! What a report says of records, read off its bytes: the deeds that its lines tell of each lane, and
//! the ledger that follows them.
#![tactic(auto)]

pub mod laws;
