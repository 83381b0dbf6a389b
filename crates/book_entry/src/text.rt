//! Texts, bytes and questions.

ghost use Rattle.std.specs.Prelude.{◌≡◌, ◌+◌, ◌^◌, ◌≤◌, ◌<◌, ◌++◌, ◌||◌, ◌==◌, IfOk, IsTrue, Ok, Err, length, if◌then◌else◌, true};
ghost use Rattle.book_entry.specs.Answers.{Reads};
ghost use Rattle.book_entry.specs.Kinds.{is_from};
ghost use Rattle.book_entry.specs.Reading.{asked_in, asks, chars_in, ends_by, ends_late, ends_soon, goes_on, is_text, maybe_text_in, own_in, place_in, question_in, raw_in, some_text_in, text_in};
ghost use Rattle.book_entry.specs.declared.fault.Fail.TheVariants as fails;

use crate::entry::OwnBytes;
use crate::fault::EntryError;
use crate::number::{asked_tag, behind, byte_exactly, number_in, short_in};
use hermes_vertical::Question;
use line_base::{Memory, Text, TextError};
use std::alloc::Global;

/// Whether bytes are a text.
fn is_text(alloc: Global, bytes: &[u8]) -> Result<bool, Memory>
    requires { length bytes.now ≤ 1024 }
    ensures { IfOk result (λ is. is ≡ is_text bytes.now) }
{
    match Text::read(alloc, bytes) {
        Ok(_) => return Ok(true),
        Err(TextError::TooLong) => return Ok(false),
        Err(TextError::BadChar) => return Ok(false),
        Err(TextError::Memory) => return Err(Memory),
    }
}

/// Whether bytes with a tail behind them are a text.
fn is_joined_text(alloc: Global, bytes: &[u8], tail: &[u8]) -> Result<bool, Memory>
    requires { length bytes.now + length tail.now ≤ 1024 }
    ensures { IfOk result (λ is. is ≡ is_text (bytes.now ++ tail.now)) }
{
    let mut joined = Vec::new(alloc);
    joined.extend_from_slice(bytes)?;
    joined.extend_from_slice(tail)?;
    is_text(alloc, joined.as_slice())
}

fn ends_by(alloc: Global, count: usize, bytes: &[u8], tail: &[u8]) -> Result<bool, Memory>
    requires { count ≤ 1024 }
    ensures { IfOk result (λ ends. ends ≡ ends_by count bytes.now tail.now) }
{
    if count < bytes.len() || count - bytes.len() < tail.len() {
        return Ok(false);
    }
    is_joined_text(alloc, bytes, tail)
}

fn ends_soon(alloc: Global, count: usize, bytes: &[u8]) -> Result<bool, Memory>
    requires { count ≤ 1024 }
    ensures { IfOk result (λ ends. ends ≡ ends_soon count bytes.now) }
{
    if ends_by(alloc, count, bytes, &[])? {
        return Ok(true);
    }
    if ends_by(alloc, count, bytes, &[128])? {
        return Ok(true);
    }
    ends_by(alloc, count, bytes, &[128, 128])
}

fn ends_late(alloc: Global, count: usize, bytes: &[u8]) -> Result<bool, Memory>
    requires { count ≤ 1024 }
    ensures { IfOk result (λ ends. ends ≡ ends_late count bytes.now) }
{
    if ends_by(alloc, count, bytes, &[160, 128])? {
        return Ok(true);
    }
    if ends_by(alloc, count, bytes, &[128, 128, 128])? {
        return Ok(true);
    }
    ends_by(alloc, count, bytes, &[144, 128, 128])
}

/// Whether bytes go on to a text of so many bytes.
fn goes_on(alloc: Global, count: usize, bytes: &[u8]) -> Result<bool, Memory>
    requires { count ≤ 1024 }
    ensures { IfOk result (λ goes. goes ≡ goes_on count bytes.now) }
{
    if ends_soon(alloc, count, bytes)? {
        return Ok(true);
    }
    ends_late(alloc, count, bytes)
}

/// The text that bytes are.
fn text_of(alloc: Global, bytes: &[u8]) -> Result<Text, EntryError>
    requires { length bytes.now ≤ 1024 }
    ensures { Reads (if is_text bytes.now then Ok bytes.now else Err fails.Bad) result }
{
    match Text::read(alloc, bytes) {
        Ok(text) => Ok(text),
        Err(TextError::TooLong) => Err(EntryError::Bad),
        Err(TextError::BadChar) => Err(EntryError::Bad),
        Err(TextError::Memory) => Err(EntryError::Memory),
    }
}

/// A text of so many bytes.
fn chars_in(alloc: Global, count: usize, bytes: &[u8]) -> Result<Text, EntryError>
    requires { count ≤ 1024 }
    ensures { Reads (chars_in count bytes.now) result }
{
    if count <= bytes.len() {
        return text_of(alloc, &bytes[..count]);
    }
    if goes_on(alloc, count, bytes)? {
        return Err(EntryError::Short);
    }
    Err(EntryError::Bad)
}

/// A text that is, with its length in front, so many bytes.
pub fn text_in(alloc: Global, count: usize, bytes: &[u8]) -> Result<Text, EntryError>
    requires { is_from 2 1026 count ≡ true }
    ensures { Reads (text_in count bytes.now) result }
{
    let length = (count - 2) as u128;
    let _length = number_in(bytes, 2, length, length)?;
    chars_in(alloc, count - 2, behind(bytes, 2))
}

/// A text that may be left out, in so many bytes.
pub fn maybe_text_in(alloc: Global, count: usize, bytes: &[u8]) -> Result<Option<Text>, EntryError>
    requires { (count == 1 || is_from 3 1027 count) ≡ true }
    ensures { Reads (maybe_text_in count bytes.now) result }
{
    if count == 1 {
        let _none = byte_exactly(bytes, 0)?;
        return Ok(None);
    }
    some_text_in(alloc, count, bytes)
}

fn some_text_in(alloc: Global, count: usize, bytes: &[u8]) -> Result<Option<Text>, EntryError>
    requires { is_from 3 1027 count ≡ true }
    ensures { Reads (some_text_in count bytes.now) result }
{
    let _some = byte_exactly(bytes, 1)?;
    let text = text_in(alloc, count - 1, behind(bytes, 1))?;
    Ok(Some(text))
}

/// So many bytes.
fn raw_in(alloc: Global, count: usize, bytes: &[u8]) -> Result<OwnBytes, EntryError>
    ensures { Reads (raw_in count bytes.now) result }
{
    if bytes.len() < count {
        return Err(EntryError::Short);
    }
    let own = OwnBytes::of(alloc, &bytes[..count])?;
    Ok(own)
}

/// Bytes that are, with their length in front, so many.
pub fn own_in(alloc: Global, count: usize, bytes: &[u8]) -> Result<OwnBytes, EntryError>
    requires { 4 ≤ count }
    ensures { Reads (own_in count bytes.now) result }
{
    let length = (count - 4) as u128;
    let _length = number_in(bytes, 4, length, length)?;
    raw_in(alloc, count - 4, behind(bytes, 4))
}

fn place_in(alloc: Global, count: usize, bytes: &[u8]) -> Result<Question, EntryError>
    requires { is_from 6 1030 count ≡ true }
    ensures { Reads (place_in count bytes.now) result }
{
    let magazine = text_in(alloc, count - 4, bytes)?;
    let slot = short_in(behind(bytes, count - 4))?;
    Ok(Question::Place { magazine, slot })
}

/// The fields of the question of this tag.
fn asked_in(alloc: Global, tag: u8, count: usize, bytes: &[u8]) -> Result<Question, EntryError>
    requires { asks (count + 1) tag ≡ true }
    ensures { Reads (asked_in tag count bytes.now) result }
{
    if tag == 0 {
        let text = text_in(alloc, count, bytes)?;
        return Ok(Question::Barcode(text));
    }
    if tag == 1 {
        let text = text_in(alloc, count, bytes)?;
        return Ok(Question::Order(text));
    }
    place_in(alloc, count, bytes)
}

/// A question of so many bytes.
pub fn question_in(alloc: Global, count: usize, bytes: &[u8]) -> Result<Question, EntryError>
    requires { is_from 3 1031 count ≡ true }
    ensures { Reads (question_in count bytes.now) result }
{
    let tag = asked_tag(bytes, count)?;
    asked_in(alloc, tag, count - 1, behind(bytes, 1))
}
