//! What a shift leaves of a board's record when the board goes to another lane: all of it. There is no
//! code here: the law is the contract of a function without a body.
#![tactic(auto)]

pub mod laws;
