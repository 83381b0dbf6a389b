//! A line of several lanes: each lane along the whole line is a *track*, a line of its own. There is
//! no code here: each law is the contract of a function without a body.
#![tactic(auto)]

pub mod laws;
