//! Twelve link steps on a lane: from a state that is announced on a lane for a gap and a board, in every
//! stretch of a script over several lanes that doesn't disturb it, the handover ends within twelve link
//! steps of that gap and lane. There is no code here: the law is the contract of a function without a
//! body.
#![tactic(auto)]

pub mod laws;
