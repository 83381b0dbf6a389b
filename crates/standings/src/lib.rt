//! Where a board's record stands along a line of machines.
//!
//! For a reader, in this order: a *mark* says that a machine has an id in one of three places
//! (specs/Marks); the marks of an id give it a *standing*, with one machine or between two
//! neighbours, or none (specs/Standing); a *deed* is a line of a report that moves a board's
//! record (specs/Deeds); and the *ledger* is the marks as someone knows them who reads the deeds
//! alone, and says which of them are legal (specs/Ledger).
#![tactic(auto)]

mod deed;
mod entry;
pub mod laws;
mod mark;
mod standing;
mod told;

pub use deed::Deed;
pub use entry::Entry;
pub use mark::{Mark, has_mark};
pub use standing::{Standing, standing_of};
pub use told::{Told, told_of};
