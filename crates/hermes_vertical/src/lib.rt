//! Supervisory messages: read exactly from the bytes of one element, refused with a place and a
//! reason, and written in their one canonical spelling.
//!
//! What both channels have in common stands in `hermes_horizontal`: the attributes, the reasons,
//! and what messages are read and written with (`hermes_horizontal::columns`).
#![tactic(auto)]

mod attributes;
mod children;
mod copies;
mod kind;
mod laws;
mod message;
mod proper;
mod question;
mod read;
mod rows;
mod write;

pub use kind::VerticalKind;
pub use laws::{refused_once, refused_or_spelled, spelled_once, zero_is_refused};
pub use message::{Passage, Passing, Question, System, Vertical, VerticalMessage};
pub use read::read_vertical;
pub use write::write_vertical;
