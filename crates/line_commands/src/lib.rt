//! What the words of the program `line` ask for, and what it answers.
#![tactic(auto)]

mod checking;
mod command;
mod making;
mod running;
mod script_reader;
mod script_run;

pub use command::do_words;
pub use line_status::{InputWhy, Status};
