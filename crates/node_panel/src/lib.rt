//! The lines of a machine's panel: what each asks for, why a line is refused, and what it gives to its
//! machine.
#![tactic(auto)]

mod forms;
mod inputs;
mod line;
mod read;
mod words;

pub use inputs::input_of;
pub use line::PanelLine;
pub use read::read_panel_line;
