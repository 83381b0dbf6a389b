//! One report: each frame of bytes is spelled or refused, each line of a script has a step from
//! each state of a line, and so each script has a run. There is no code here: each law is the
//! contract of a function without a body.
//!
//! For a reader: specs/Frames and specs/Steps.
#![tactic(auto)]

pub mod laws;
