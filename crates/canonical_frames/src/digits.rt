ghost use Rattle.std.specs.Prelude.{◌≡◌, ◌++◌, ◌≤◌, true, IfSome, IsTrue, length, take};
ghost use Rattle.line_base.specs.Number.{are_digits};
ghost use Rattle.canonical_frames.specs.Pieces.{IsValue};
ghost use Rattle.canonical_frames.specs.Values.{IsWhole, IsFraction};
ghost use Rattle.hermes_horizontal.specs.Values.{number, decimal};

use crate::front::{behind, behind_quote};

/// What is behind a number of at most nine digits without leading zeros, and its quote.
pub fn behind_number(bytes: &[u8]) -> Option<&[u8]>
    ensures { IfSome result (λ rest. IsValue number bytes.now rest.now) }
{
    let number = split_digits(bytes);
    if !is_whole(number.digits, 9) {
        return None;
    }
    let rest = behind_quote(number.rest)?;
    Some(rest)
}

/// What is behind a decimal as it is written, and its quote.
pub fn behind_decimal(bytes: &[u8]) -> Option<&[u8]>
    ensures { IfSome result (λ rest. IsValue decimal bytes.now rest.now) }
{
    match behind_whole_decimal(bytes) {
        Some(rest) => Some(rest),
        None => behind_pointed_decimal(bytes),
    }
}

/// The same of a whole number.
fn behind_whole_decimal(bytes: &[u8]) -> Option<&[u8]>
    ensures { IfSome result (λ rest. IsValue decimal bytes.now rest.now) }
{
    let whole = split_digits(bytes);
    if !is_whole(whole.digits, 6) {
        return None;
    }
    let rest = behind_quote(whole.rest)?;
    Some(rest)
}

/// The same of one with a point, and digits that don't end with a zero.
fn behind_pointed_decimal(bytes: &[u8]) -> Option<&[u8]>
    ensures { IfSome result (λ rest. IsValue decimal bytes.now rest.now) }
{
    let whole = split_digits(bytes);
    let point = behind(b".", whole.rest)?;
    let fraction = split_digits(point);
    if !is_whole(whole.digits, 6) {
        return None;
    }
    if !is_fraction(fraction.digits) {
        return None;
    }
    let rest = behind_quote(fraction.rest)?;
    Some(rest)
}

/// The digits at the front, and what follows them.
#[derive(Clone, Copy)]
struct Run<'a> {
    digits: &'a [u8],
    rest: &'a [u8],
}

fn split_digits(bytes: &[u8]) -> Run<'_>
    ensures digits { are_digits result.digits.now ≡ true }
    ensures parts { bytes.now ≡ result.digits.now ++ result.rest.now }
{
    let count = count_digits(bytes);
    let (digits, rest) = bytes.split_at(count);
    Run { digits, rest }
}

/// How many digits stand at the front.
fn count_digits(bytes: &[u8]) -> usize
    ensures within { result ≤ length bytes.now }
    ensures digits { are_digits (take result bytes.now) ≡ true }
{
    for (i, byte) in bytes.iter().enumerate() {
        if !byte.is_ascii_digit() {
            return i;
        }
    }
    bytes.len()
}

/// Whether digits are a whole number without leading zeros, and at most `most`.
fn is_whole(digits: &[u8], most: usize) -> bool
    ensures { IsTrue result → IsWhole most digits.now }
{
    match digits {
        [] => false,
        [_] => 1 <= most,
        [first, ..] => *first != b'0' && digits.len() <= most,
    }
}

/// Whether digits are those behind the point of a decimal: at most six, of which the last is no
/// zero.
fn is_fraction(digits: &[u8]) -> bool
    ensures { IsTrue result → IsFraction digits.now }
{
    match digits {
        [] => false,
        [.., last] => *last != b'0' && digits.len() <= 6,
    }
}
