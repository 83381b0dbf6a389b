//! What each line of a script over several lanes is to each of them, and so the run of a lane line by
//! line. There is no code here: the law is the contract of a function without a body.
#![tactic(auto)]

pub mod laws;
