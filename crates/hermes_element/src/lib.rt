//! The element form: elements read exactly from bytes, refused with a place and a reason, and
//! written in their one canonical spelling.
#![tactic(auto)]

mod attribute;
mod bytes;
mod document;
mod element;
mod lanes;
mod laws;
mod lent;
mod own;
mod place;
mod proper;
mod read;
mod reference;
mod refusal;
mod shape;
mod spans;
mod stop;
mod tag;
mod value;
mod write;

pub use attribute::{Attribute, Attributes};
pub use element::{Children, Element};
pub use laws::{
    one_spelling, refused_once, refused_or_spelled, spelled_once, written_is_read, zero_is_refused,
};
pub use lent::{LentAttribute, LentAttributes, LentChildren, LentElement, LentName, LentValue};
pub use read::{read_element, read_lent};
pub use refusal::{ChildError, ElementError, Why};
pub use write::{write_attribute, write_element};
