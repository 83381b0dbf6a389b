//! The supervisory channel at a machine: the work orders that it asked for, and its end of the
//! session with the supervisor.
//!
//! Messages and answers are moved; memory is taken for a question alone.
#![tactic(auto)]

mod action;
mod book;
mod error;
pub mod laws;
mod order;
mod supervised;

pub use action::{VerticalAction, unexpected};
pub use book::OrderBook;
pub use error::{AnswerError, AskError};
pub use order::Order;
pub use supervised::Supervised;
