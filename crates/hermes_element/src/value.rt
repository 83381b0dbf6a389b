ghost use Rattle.std.specs.Prelude.{◌≡◌, ◌≢◌, ◌+◌, ◌<◌, ◌≤◌, ◌⊎◌, Bool, IfOk, OnOk, length, slice_index, slice_range, true};
ghost use Rattle.line_base.specs.Text.{IsAllowed};
ghost use Rattle.hermes_element.specs.Plain.{is_quote};
ghost use Rattle.hermes_element.specs.Steps.{ReadsValue, ReadsPart, ReadsWide, Puts, IsOne};

use crate::lent::LentValue;
use crate::place::{Place, wide_next, wide_start};
use crate::reference::read_reference;
use crate::spans::{is_plain, plain_end};
use crate::stop::Stop;
use std::alloc::Global;

/// The most bytes that a value may have.
const MOST_VALUE_BYTES: usize = 1024;

/// Reads a value of this quote from its first byte. Answers it and the index behind its closing
/// quote.
pub(crate) fn read_value<'a>(
    alloc: Global,
    bytes: &'a [u8],
    at: usize,
    quote: u8,
) -> Result<(LentValue<'a>, usize), Stop>
    requires here { at ≤ length bytes.now }
    requires quote { is_quote quote ≡ true }
    ensures reads { ReadsValue bytes.now quote at result }
    ensures within { IfOk result (λ read. (at < read.1) × (read.1 ≤ length bytes.now)) }
{
    let end = plain_end(bytes, at, quote);
    if end < bytes.len() && bytes[end] == quote {
        if end - at > MOST_VALUE_BYTES {
            return Err(Stop::LongValue(at));
        }
        return Ok((LentValue::of(&bytes[at..end]), end + 1));
    }
    read_mixed_value(alloc, bytes, at, quote)
}

/// The same of a value with escapes, blanks other than spaces, or characters of several bytes.
#[cold]
#[inline(never)]
fn read_mixed_value<'a>(
    alloc: Global,
    bytes: &'a [u8],
    at: usize,
    quote: u8,
) -> Result<(LentValue<'a>, usize), Stop>
    requires here { at ≤ length bytes.now }
    requires quote { is_quote quote ≡ true }
    ensures reads { ReadsValue bytes.now quote at result }
    ensures within { IfOk result (λ read. (at < read.1) × (read.1 ≤ length bytes.now)) }
{
    let mut value: Vec<u8> = Vec::new(alloc);
    let mut after_cr = false;
    let mut end = at;
    while end < bytes.len() && bytes[end] != quote {
        match read_part(&mut value, bytes, end, quote, after_cr) {
            Ok((next, is_cr)) => {
                end = next;
                after_cr = is_cr;
            }
            Err(stop) => return Err(stop),
        }
    }
    if end == bytes.len() {
        return Err(Stop::Shape(end));
    }
    if value.as_slice().len() > MOST_VALUE_BYTES {
        return Err(Stop::LongValue(at));
    }
    Ok((LentValue::of_own(value), end + 1))
}

/// Reads one character or escape of a value, behind a raw CR or not, and appends what it stands
/// for. Answers the index behind it, and whether it is a raw CR.
fn read_part(
    value: &mut Vec<u8>,
    bytes: &[u8],
    at: usize,
    quote: u8,
    after_cr: bool,
) -> Result<(usize, bool), Stop>
    requires here { at < length bytes.now }
    requires quote { is_quote quote ≡ true }
    requires inside { slice_index bytes.now at ≢ quote }
    ensures reads { ReadsPart bytes.now quote at value.old.items after_cr value.new.items result }
    ensures within { IfOk result (λ to. (at < to.0) × (to.0 ≤ length bytes.now)) }
    ensures allowed { OnOk result (IsAllowed value.old.items → IsAllowed value.new.items) }
{
    let byte = bytes[at];
    if byte == b'&' {
        return read_escape(value, bytes, at, quote);
    }
    if byte >= 128 {
        return read_character(value, bytes, at, quote);
    }
    read_ascii(value, bytes, at, quote, after_cr)
}

/// The same of an escape.
fn read_escape(
    value: &mut Vec<u8>,
    bytes: &[u8],
    at: usize,
    quote: u8,
) -> Result<(usize, bool), Stop>
    requires here { at < length bytes.now }
    requires escape { slice_index bytes.now at ≡ 38 }
    requires quote { is_quote quote ≡ true }
    ensures reads { (after_cr : Bool)
        → ReadsPart bytes.now quote at value.old.items after_cr value.new.items result }
    ensures within { IfOk result (λ to. (at < to.0) × (to.0 ≤ length bytes.now)) }
    ensures allowed { OnOk result (IsAllowed value.old.items → IsAllowed value.new.items) }
{
    match read_reference(bytes, at) {
        Ok((found, next)) => {
            let mut room = [0; 4];
            put(value, found.encode_utf8(&mut room).as_bytes(), next, false)
        }
        Err(stop) => Err(stop),
    }
}

/// The same of a character of several bytes.
fn read_character(
    value: &mut Vec<u8>,
    bytes: &[u8],
    at: usize,
    quote: u8,
) -> Result<(usize, bool), Stop>
    requires here { at < length bytes.now }
    requires first { 128 ≤ slice_index bytes.now at }
    requires quote { is_quote quote ≡ true }
    ensures reads { (after_cr : Bool)
        → ReadsPart bytes.now quote at value.old.items after_cr value.new.items result }
    ensures within { IfOk result (λ to. (at < to.0) × (to.0 ≤ length bytes.now)) }
    ensures allowed { OnOk result (IsAllowed value.old.items → IsAllowed value.new.items) }
{
    match read_wide(bytes, at, quote) {
        Ok(next) => put(value, &bytes[at..next], next, false),
        Err(stop) => Err(stop),
    }
}

/// The same of a raw character of one byte.
fn read_ascii(
    value: &mut Vec<u8>,
    bytes: &[u8],
    at: usize,
    quote: u8,
    after_cr: bool,
) -> Result<(usize, bool), Stop>
    requires here { at < length bytes.now }
    requires one { slice_index bytes.now at < 128 }
    requires raw { slice_index bytes.now at ≢ 38 }
    requires quote { is_quote quote ≡ true }
    requires inside { slice_index bytes.now at ≢ quote }
    ensures reads { ReadsPart bytes.now quote at value.old.items after_cr value.new.items result }
    ensures within { IfOk result (λ to. (at < to.0) × (to.0 ≤ length bytes.now)) }
    ensures allowed { OnOk result (IsAllowed value.old.items → IsAllowed value.new.items) }
{
    let byte = bytes[at];
    if is_plain(quote, byte) {
        return put(value, &[byte], at + 1, false);
    }
    if byte == b'\n' {
        if after_cr {
            return put(value, &[], at + 1, false);
        }
        return put(value, b" ", at + 1, false);
    }
    if byte == b'\r' {
        return put(value, b" ", at + 1, true);
    }
    if byte == b'\t' {
        return put(value, b" ", at + 1, false);
    }
    Err(Stop::Shape(at))
}

/// Appends bytes to a value, and answers how it goes on.
fn put(value: &mut Vec<u8>, bytes: &[u8], next: usize, is_cr: bool) -> Result<(usize, bool), Stop>
    ensures { Puts value.old.items bytes.now next is_cr value.new.items result }
{
    match value.extend_from_slice(bytes) {
        Ok(()) => Ok((next, is_cr)),
        Err(_) => Err(Stop::Memory),
    }
}

/// Reads a character of several bytes in a value of this quote. Answers the index behind it.
fn read_wide(bytes: &[u8], at: usize, quote: u8) -> Result<usize, Stop>
    requires here { at < length bytes.now }
    requires first { 128 ≤ slice_index bytes.now at }
    requires quote { is_quote quote ≡ true }
    ensures reads { ReadsWide bytes.now quote at result }
    ensures within { IfOk result (λ end. (at < end) × (end ≤ length bytes.now)) }
    ensures one { IfOk result (λ end. IsOne (slice_range bytes.now at end)) }
{
    let mut end = at + 1;
    let mut place = match wide_start(quote, bytes[at]) {
        Some(place) => place,
        None => return Err(Stop::Shape(at)),
    };
    while let Place::Wide(_, floor, bits, left) = place {
        if end == bytes.len() {
            return Err(Stop::Shape(end));
        }
        match wide_next(quote, floor, bits, left, bytes[end]) {
            Some(next) => place = next,
            None => return Err(Stop::Shape(end)),
        }
        end += 1;
    }
    Ok(end)
}
