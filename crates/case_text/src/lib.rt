//! How the text of a case spells bytes, and lines that stand several times, for the programs of
//! cases.
#![tactic(auto)]

mod repeated;
mod spelled;

pub use repeated::{spell_time, times_of};
pub use spelled::spell;
