//! The program `node`, with all that holds of what it does.
#![tactic(auto)]

mod book_call;
mod main_call;

pub use book_call::node_book_main;
pub use main_call::node_main;
pub use node_commands::{BookStatus, EndError, Guarded, Taken, tell_book_end, tell_end};
pub use node_run::NodeStatus;
pub use node_settings::{ConfigKey, ConfigWhy, Settings};
pub use restart_book::BookWhy;
