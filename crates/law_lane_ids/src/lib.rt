//! Ids over all lanes of a line: no two boards share one, and one that is made on any lane was named on
//! none before. There is no code here: the law is the contract of a function without a body.
#![tactic(auto)]

pub mod laws;
