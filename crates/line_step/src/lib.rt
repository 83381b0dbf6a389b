//! The line step, as definitions: what a line of a script does to the machines of a line, to the
//! links between them and to the floor under them, and what is told of it. There is no code here:
//! each law is the contract of a function without a body.
//!
//! For a reader, in this order: what lies between the machines (specs/World), a line
//! (specs/State), what the acts of a machine do (specs/Acts), a step of a machine (specs/Steps),
//! why a line of the script does nothing (specs/Reasons), what a line of each form asks for
//! (specs/Requests), what the report shows (specs/Shown), what is done of a request (specs/Lines);
//! then what stands together between two steps (specs/Together), what a line tells of
//! itself (specs/Views), a run (specs/Runs), and the laws (src/laws, src/near with specs/Numbered
//! and Near, and of whole runs src/run_laws with specs/FloorIds and Lies).
#![tactic(auto)]

pub mod laws;
pub mod near;
pub mod run_laws;
