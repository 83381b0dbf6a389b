//! Running machines: what their turns do to the connections between them and to the floor under
//! them, in whatever order they fall. There is no code here: each law is the contract of a
//! function without a body of its own.
#![tactic(auto)]

pub mod laws;
pub mod wires;
