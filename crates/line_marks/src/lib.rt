//! Where the records of boards stand: which boards have a mark on a lane of a line, and how that
//! follows a line of the script.
//!
//! What marks and standings are, is defined in `standings`, what machines have in `line_step`.
#![tactic(auto)]

mod all_marks;
mod changed;
mod index;
mod marks;
mod seat;
mod span;

pub use all_marks::{LaneMark, add_marks};
pub use changed::{ids_named, ids_of_both};
pub use index::{Index, Moved};
pub use seat::{LaneStanding, Seat, both, own_seat};
pub use span::{Span, stepped};
