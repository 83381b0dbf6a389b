//! The lines of a script: what each asks for, and why a line is refused.
#![tactic(auto)]

mod find;
mod forms;
mod line;
mod read;
pub mod words;

pub use line::{LaneLine, LineError, LineWhy, ScriptLine};
pub use read::{MOST_LINE_BYTES, read_line};
