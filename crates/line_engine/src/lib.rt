//! A line of machines in code, and what one line of a script does to it.
//!
//! What a line of the script does is defined in `line_step`, what it tells in `line_report`. The
//! machines of a lane are in `line_machines`, the marks of its boards in `line_marks`.
#![tactic(auto)]

mod line;
mod moving;
mod named;
mod playing;
mod seat;
mod sharing;
mod show;
mod track;
mod tracks;

pub use line::Line;
pub use line_marks::{LaneMark, LaneStanding};
pub use line_report::{
    Happening, LaneHappened, LaneHappening, Reason, Summary, write_all, write_summary,
};
