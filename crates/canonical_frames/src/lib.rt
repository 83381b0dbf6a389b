//! Frames that are spelled as `hermes_horizontal` writes their message, recognised without reading
//! them.
#![tactic(auto)]

mod digits;
mod form;
mod frame;
mod front;
mod id;
mod moment;
mod row;
mod text;

pub use frame::is_canonical;
