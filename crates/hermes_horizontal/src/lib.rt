//! Horizontal messages: read exactly from the bytes of one element, refused with a place and a
//! reason, and written in their one canonical spelling.
#![tactic(auto)]

mod alike;
mod assign;
mod attr;
mod attributes;
mod board;
mod children;
pub mod columns;
mod copies;
mod fault;
mod field;
mod find;
mod kind;
mod laws;
mod message;
mod numbers;
mod proper;
mod read;
mod root;
mod rows;
mod said;
mod subs;
mod write;

pub use attr::Attr;
pub use copies::no_info;
pub use fault::{Fault, MessageError};
pub use kind::Kind;
pub use laws::{refused_once, refused_or_spelled, spelled_once, zero_is_refused};
pub use message::{Features, Horizontal, Info, Message, Ping, Service};
pub use read::read_horizontal;
pub use said::Said;
pub use write::write_horizontal;
