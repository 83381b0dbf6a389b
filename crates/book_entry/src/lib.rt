//! What a machine was given in a step, as an entry of its restart book: its bytes, written in their
//! one form and read exactly; what is kept of a step, and the step that an entry asks for.
#![tactic(auto)]

mod entry;
mod fault;
mod input;
mod keeping;
mod kind;
pub mod laws;
mod number;
mod parts;
mod proper;
mod read;
mod stepping;
mod text;
mod write;

pub use entry::{Entry, Events, OwnBytes, OwnInput};
pub use fault::EntryError;
pub use keeping::own_entry;
pub use read::read_entry;
pub use stepping::{StepError, step_entry};
pub use write::write_entry;
