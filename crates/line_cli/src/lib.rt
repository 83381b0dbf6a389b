//! The program `line`, with all that holds of what it does.
#![tactic(auto)]

mod command;
mod laws;

pub use command::line_main;
pub use laws::{each_input_has_one_answer, each_lane_is_run, one_make_text, one_report, read_once};
pub use line_commands::{InputWhy, Status};
