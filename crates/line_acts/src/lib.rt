//! What the acts of a machine do to the links of a line and to the floor under it, in code, and
//! which of them the report tells. What that is, is defined in `line_step`.
#![tactic(auto)]

mod acts;
mod links;
mod world;

pub use acts::{Teller, do_acts, tell_cut};
pub use links::link_of;
pub use world::World;
