//! Sentences on a whole line: what it has at most, that handovers open exactly when announced, that a
//! question has at most one answer, that contents are kept with all parts, and that boards go first in,
//! first out. There is no code here: each law is the contract of a function without a body.
//!
//! For a reader: specs/Within; specs/Announced; specs/Answers; specs/Contents and There; specs/Order,
//! and specs/Along for the same a line at a time.
#![tactic(auto)]

pub mod contents_kept;
pub mod first_in_first_out;
pub mod line_bounds;
pub mod line_openings;
pub mod work_orders;
