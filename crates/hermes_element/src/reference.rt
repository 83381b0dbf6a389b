ghost use Rattle.std.specs.Prelude.{◌≡◌, ◌+◌, ◌*◌, ◌<◌, ◌≤◌, ℕ, IfOk, IfSome, length, slice_index, slice_range, min, true, IsTrue, ◌↔◌};
ghost use Rattle.line_base.specs.Text.{is_allowed_char};
ghost use Rattle.hermes_element.specs.Plain.{is_digit, is_hex_digit};
ghost use Rattle.hermes_element.specs.Checks.{allowed, named_char, number_of, digit_of};
ghost use Rattle.hermes_element.specs.Steps.{ReadsReference, IsGood};

use crate::spans::{digits_end, hex_digits_end, letters_end};
use crate::stop::Stop;
use line_base::is_allowed_char;

/// One more than the largest number of a character.
const CHARACTERS: u32 = 0x11_0000;

/// Reads an escape from its `&`. Answers its character and the index behind its `;`.
pub(crate) fn read_reference(bytes: &[u8], at: usize) -> Result<(char, usize), Stop>
    requires here { at < length bytes.now }
    requires escape { slice_index bytes.now at ≡ 38 }
    ensures reads { ReadsReference bytes.now at result }
    ensures within { IfOk result (λ read. (at < read.1) × (read.1 ≤ length bytes.now)) }
    ensures allowed { IfOk result (λ read. is_allowed_char read.0 ≡ true) }
{
    let start = at + 1;
    if start < bytes.len() && bytes[start] == b'#' {
        return read_number(bytes, at);
    }
    let end = letters_end(bytes, start);
    if !is_escape_end(bytes, start, end) {
        return Err(Stop::Shape(end));
    }
    match named_char(&bytes[start..end]) {
        Some(found) => Ok((found, end + 1)),
        None => Err(Stop::Reference(at)),
    }
}

/// The same of an escape that begins with `&#`.
fn read_number(bytes: &[u8], at: usize) -> Result<(char, usize), Stop>
    requires here { at + 1 < length bytes.now }
    requires escape { slice_index bytes.now at ≡ 38 }
    requires number { slice_index bytes.now (at + 1) ≡ 35 }
    ensures reads { ReadsReference bytes.now at result }
    ensures within { IfOk result (λ read. (at < read.1) × (read.1 ≤ length bytes.now)) }
    ensures allowed { IfOk result (λ read. is_allowed_char read.0 ≡ true) }
{
    let start = at + 2;
    if start < bytes.len() && bytes[start] == b'x' {
        return read_hex_number(bytes, at);
    }
    let end = digits_end(bytes, start);
    if !is_escape_end(bytes, start, end) {
        return Err(Stop::Shape(end));
    }
    match allowed(capped_number(&bytes[start..end], 10)) {
        Some(found) => Ok((found, end + 1)),
        None => Err(Stop::Reference(at)),
    }
}

/// The same of an escape that begins with `&#x`.
fn read_hex_number(bytes: &[u8], at: usize) -> Result<(char, usize), Stop>
    requires here { at + 2 < length bytes.now }
    requires escape { slice_index bytes.now at ≡ 38 }
    requires number { slice_index bytes.now (at + 1) ≡ 35 }
    requires hexadecimal { slice_index bytes.now (at + 2) ≡ 120 }
    ensures reads { ReadsReference bytes.now at result }
    ensures within { IfOk result (λ read. (at < read.1) × (read.1 ≤ length bytes.now)) }
    ensures allowed { IfOk result (λ read. is_allowed_char read.0 ≡ true) }
{
    let start = at + 3;
    let end = hex_digits_end(bytes, start);
    if !is_escape_end(bytes, start, end) {
        return Err(Stop::Shape(end));
    }
    match allowed(capped_number(&bytes[start..end], 16)) {
        Some(found) => Ok((found, end + 1)),
        None => Err(Stop::Reference(at)),
    }
}

/// Whether an escape of at least one letter or digit ends here.
fn is_escape_end(bytes: &[u8], start: usize, end: usize) -> bool
    ensures { IsTrue result ↔ IsGood bytes.now start end }
{
    start < end && end < bytes.len() && bytes[end] == b';'
}

/// The character of a named escape.
fn named_char(name: &[u8]) -> Option<char>
    ensures { result ≡ named_char name.now }
{
    if name == &b"amp"[..] {
        return Some('&');
    }
    if name == &b"lt"[..] {
        return Some('<');
    }
    if name == &b"gt"[..] {
        return Some('>');
    }
    if name == &b"quot"[..] {
        return Some('"');
    }
    if name == &b"apos"[..] {
        return Some('\'');
    }
    None
}

/// The allowed character of a number.
fn allowed(number: u32) -> Option<char>
    ensures { result ≡ allowed number }
{
    match char::from_u32(number) {
        Some(found) if is_allowed_char(found) => Some(found),
        _ => None,
    }
}

/// The number that digits spell, or that of no character where it is larger.
fn capped_number(digits: &[u8], base: u32) -> u32
    requires some { 0 < base }
    requires small { base ≤ 16 }
    ensures { result ≡ min (number_of base digit_of 0 digits.now) CHARACTERS }
{
    let mut number: u32 = 0;
    for digit in digits {
        number = (number * base + digit_value(*digit)).min(CHARACTERS);
    }
    number
}

/// The value of a digit of base 10 or 16.
fn digit_value(digit: u8) -> u32
    ensures value { result ≡ digit_of digit }
    ensures bound { result < 256 }
{
    if digit <= b'9' {
        return u32::from(digit.saturating_sub(b'0'));
    }
    if digit <= b'F' {
        return u32::from(digit.saturating_sub(b'A' - 10));
    }
    u32::from(digit.saturating_sub(b'a' - 10))
}
