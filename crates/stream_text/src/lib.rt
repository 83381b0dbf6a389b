//! What the program `line` writes of a stream of messages, with the word `read`.
#![tactic(auto)]

mod reading;
mod stream_reader;

pub use reading::read_stream;
