//! A stream of bytes cut into messages.
//!
//! Bytes come in pieces of any size, and go out as frames: each the bytes of one message, through
//! its first `</Hermes>`. Nothing here knows what a message says.
#![tactic(auto)]

mod block;
mod cutter;
mod scan;

pub use cutter::{Cut, Cutter};

/// The most bytes that a message has, its end included, and the most that wait in a cutter.
pub const MOST_MESSAGE_BYTES: usize = 65_536;
