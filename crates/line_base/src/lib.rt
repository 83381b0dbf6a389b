//! Small values that every layer above speaks of.
//!
//! Bytes, texts, names, words, numbers, decimals, moments, and the enumerations of the standard's
//! messages. Nothing here knows of messages, machines or lines.
#![tactic(auto)]

mod bytes;
mod civil;
mod decimal;
mod memory;
mod moment;
mod name;
mod number;
mod states;
mod text;
mod word;

pub use bytes::{is_blank, is_escaped};
pub use decimal::{BadDecimal, Decimal};
pub use memory::Memory;
pub use moment::{BadMoment, Moment};
pub use name::{Name, NameError, is_name_byte, is_name_start};
pub use number::{digits_value, is_digits, read_number};
pub use states::{Code, Flip, Quality, Role, Seen, SensorEvent, Severity, Side, Transfer};
pub use text::{
    MOST_TEXT_BYTES, Text, TextError, copied_text, is_allowed_char, is_plain_text, take_text,
};
pub use word::{Word, Words};
