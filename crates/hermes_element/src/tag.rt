ghost use Rattle.std.specs.Prelude.{◌≡◌, ◌+◌, ◌<◌, ◌≤◌, ℕ, IfOk, length, slice_index, true, false};
ghost use Rattle.std.specs.List.{list_any};
ghost use Rattle.std.specs.Str.{bytes_eq};
ghost use Rattle.line_base.specs.Name.{is_name_start};
ghost use Rattle.hermes_element.specs.Machine.{names_of};
ghost use Rattle.hermes_element.specs.Steps.{ReadsAttribute, ReadsAttributes, ReadsTag, IsNoBlank};

use crate::bytes::is_quote;
use crate::lent::{LentAttribute, LentAttributes, LentChildren, LentElement, LentName};
use crate::spans::{blanks_end, name_end};
use crate::stop::Stop;
use crate::value::read_value;
use line_base::is_name_start;
use std::alloc::Global;

/// The most attributes that an element may have.
const MOST_ATTRIBUTES: usize = 64;

/// The most elements that are open where another one begins.
pub(crate) const MOST_OPEN: usize = 4;

/// Reads a start tag from its name on, where so many elements are open. Answers its element
/// without children, and the index where its attributes and the blanks behind them end.
pub(crate) fn read_tag<'a>(
    alloc: Global,
    bytes: &'a [u8],
    at: usize,
    open_count: usize,
) -> Result<(LentElement<'a>, usize), Stop>
    requires here { at ≤ length bytes.now }
    requires behind { 0 < at }
    requires start { at < length bytes.now → slice_index bytes.now at ≡ 47 → open_count ≡ 0 }
    ensures reads { ReadsTag bytes.now open_count at result }
    ensures within { IfOk result (λ read. (at < read.1) × (read.1 ≤ length bytes.now)) }
    ensures over { IfOk result (λ read. IsNoBlank bytes.now read.1) }
{
    if at == bytes.len() || !is_name_start(bytes[at]) {
        return Err(Stop::Shape(at));
    }
    if open_count == MOST_OPEN {
        return Err(Stop::Deep(at - 1));
    }
    let name_end = name_end(bytes, at);
    let name = LentName::of(&bytes[at..name_end]);
    match read_attributes(alloc, bytes, name_end, open_count) {
        Ok((attributes, end)) => Ok((
            LentElement {
                name,
                at: at - 1,
                attributes,
                children: LentChildren::new(alloc),
            },
            end,
        )),
        Err(stop) => Err(stop),
    }
}

/// Reads the attributes of a start tag from behind its name, where so many elements are open.
/// Answers them, and the index where they and the blanks behind them end.
fn read_attributes<'a>(
    alloc: Global,
    bytes: &'a [u8],
    at: usize,
    open_count: usize,
) -> Result<(LentAttributes<'a>, usize), Stop>
    requires here { at ≤ length bytes.now }
    ensures reads { ReadsAttributes bytes.now at result }
    ensures within { IfOk result (λ read. (at ≤ read.1) × (read.1 ≤ length bytes.now)) }
    ensures over { IfOk result (λ read. IsNoBlank bytes.now read.1) }
{
    let mut attributes = LentAttributes::new(alloc);
    let mut end = at;
    loop {
        let next = blanks_end(bytes, end);
        if next == end || next == bytes.len() || !is_name_start(bytes[next]) {
            return Ok((attributes, next));
        }
        match read_attribute(alloc, bytes, next, &attributes) {
            Ok((attribute, behind)) => match attributes.push(attribute, open_count) {
                Ok(()) => end = behind,
                Err(_) => return Err(Stop::Memory),
            },
            Err(stop) => return Err(stop),
        }
    }
}

/// Reads an attribute from its name on, behind those of its element that were read before. Answers
/// it and the index behind its value.
fn read_attribute<'a>(
    alloc: Global,
    bytes: &'a [u8],
    at: usize,
    before: &LentAttributes<'a>,
) -> Result<(LentAttribute<'a>, usize), Stop>
    requires here { at < length bytes.now }
    requires name { is_name_start (slice_index bytes.now at) ≡ true }
    ensures reads { ReadsAttribute bytes.now before.now at result }
    ensures within { IfOk result (λ read. (at < read.1) × (read.1 ≤ length bytes.now)) }
{
    if before.list().len() == MOST_ATTRIBUTES {
        return Err(Stop::Many(at));
    }
    let name_end = name_end(bytes, at);
    let equals = blanks_end(bytes, name_end);
    if equals == bytes.len() || bytes[equals] != b'=' {
        return Err(Stop::Shape(equals));
    }
    if has_name(before.list(), &bytes[at..name_end]) {
        return Err(Stop::Repeated(name_end));
    }
    let quote_at = blanks_end(bytes, equals + 1);
    if quote_at == bytes.len() || !is_quote(bytes[quote_at]) {
        return Err(Stop::Shape(quote_at));
    }
    let name = LentName::of(&bytes[at..name_end]);
    let start = quote_at + 1;
    match read_value(alloc, bytes, start, bytes[quote_at]) {
        Ok((value, end)) => Ok((
            LentAttribute {
                name,
                value,
                at: start,
            },
            end,
        )),
        Err(stop) => Err(stop),
    }
}

/// Whether some attribute has this name.
fn has_name(attributes: &[LentAttribute<'_>], name: &[u8]) -> bool
    ensures { result ≡ list_any (bytes_eq name.now) (names_of attributes.now) }
{
    for attribute in attributes {
        if name == attribute.name.bytes() {
            return true;
        }
    }
    false
}
