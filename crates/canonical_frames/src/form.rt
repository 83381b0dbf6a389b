ghost use Rattle.std.specs.Prelude.{IfSome, IsTrue};
ghost use Rattle.canonical_frames.specs.Pieces.{IsValue, kind_of_form};
ghost use Rattle.canonical_frames.specs.Values.{IsChoice};
ghost use Rattle.hermes_horizontal.specs.Values.{choice};

use crate::digits::{behind_decimal, behind_number};
use crate::front::{behind_one, behind_quote};
use crate::id::behind_id;
use crate::moment::behind_moment;
use crate::text::behind_text;

/// The forms of an attribute's value.
#[derive(Clone, Copy)]
pub enum Form {
    Text,
    Number,
    /// One digit between two.
    Choice(u8, u8),
    Id,
    Decimal,
    Moment,
}

/// What is behind a value of this form and its quote, where one stands at the front.
pub fn behind_value(form: Form, bytes: &[u8]) -> Option<&[u8]>
    ensures { IfSome result (λ rest. IsValue (kind_of_form form) bytes.now rest.now) }
{
    match form {
        Form::Text => behind_text(bytes),
        Form::Number => behind_number(bytes),
        Form::Choice(low, high) => behind_choice(low, high, bytes),
        Form::Id => behind_id(bytes),
        Form::Decimal => behind_decimal(bytes),
        Form::Moment => behind_moment(bytes),
    }
}

/// What is behind a digit between these two and its quote.
fn behind_choice(low: u8, high: u8, bytes: &[u8]) -> Option<&[u8]>
    ensures { IfSome result (λ rest. IsValue (choice low high) bytes.now rest.now) }
{
    let digit = behind_one(bytes)?;
    if !is_choice(low, high, digit.byte) {
        return None;
    }
    let rest = behind_quote(digit.rest)?;
    Some(rest)
}

/// Whether a character is a digit between these two.
fn is_choice(low: u8, high: u8, digit: u8) -> bool
    ensures { IsTrue result → IsChoice low high digit }
{
    digit.is_ascii_digit() && low <= digit - b'0' && digit - b'0' <= high
}
