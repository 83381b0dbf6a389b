//! The words of a line, and the values that they spell.

ghost use Rattle.std.specs.Prelude.{◌≡◌, ◌≤◌, ◌<◌, ◌==◌, IfOk, IfSome, length, map, position};
ghost use Rattle.std.specs.List.{list_all};
ghost use Rattle.std.specs.Str.{bytes_eq};
ghost use Rattle.line_script.specs.Ranges.{IsBetween};
ghost use Rattle.line_script.specs.Words.{is_blank, is_text_byte, number_in, place_from, place_of, words_of, ReadsToken, identity_of, literal_of, side_of, quality_of, event_of, segment_line_of, switch_of, asked_by_of, question_of, Reads, barcode_in, barcode_of};

use crate::line::{LineError, LineWhy};
use board_record::BoardId;
use hermes_vertical::Question;
use line_base::{Quality, SensorEvent, Side, Text, TextError, digits_value, is_digits};
use smema_bridge::SegmentLine;
use std::alloc::{AllocError, Global};

/// The most bytes of a text word.
const MOST_TOKEN_BYTES: usize = 64;

/// The most digits of a number.
const MOST_DIGITS: usize = 15;

/// The most lanes of a line.
pub const MOST_LANES: u64 = 4;

/// A machine or a gap by its number, and a lane of the line.
#[derive(Clone, Copy)]
pub struct Place {
    pub number: u32,
    pub lane: u32,
}

/// What a work order is asked for by, where a text is enough to say it.
#[derive(Clone, Copy)]
pub enum AskedBy {
    /// A board's barcode.
    Barcode,
    /// The order's id.
    Order,
}

/// Whether a byte parts words.
pub fn is_blank(byte: u8) -> bool
    ensures { result ≡ is_blank byte }
{
    matches!(byte, b' ' | b'\t')
}

/// Whether each byte is a tab or printable ASCII. It looks at all of them, so that many are tested at
/// once.
pub fn is_text(bytes: &[u8]) -> bool
    ensures { result ≡ list_all is_text_byte bytes.now }
{
    let mut all = true;
    for byte in bytes {
        all &= is_text_byte(*byte);
    }
    all
}

#[inline]
fn is_text_byte(byte: u8) -> bool
    ensures { result ≡ is_text_byte byte }
{
    matches!(byte, b' '..=b'~' | b'\t')
}

/// The words of a line.
pub fn words_of(alloc: Global, bytes: &[u8]) -> Result<Vec<&[u8]>, AllocError>
    ensures { IfOk result (λ words. map (λ word. word.now) words.items ≡ words_of bytes.now) }
{
    bytes
        .split(|byte| is_blank(*byte))
        .filter(|word| !word.is_empty())
        .collect(alloc)
}

/// A number of 1 to 15 digits between two bounds. `BadNumber` where the word is none.
pub fn number(word: &[u8], low: u64, high: u64) -> Result<u64, LineWhy>
    ensures value { result ≡ number_in low high word.now }
    ensures within { IfOk result (IsBetween low high) }
{
    if !is_digits(word, 1, MOST_DIGITS) {
        return Err(LineWhy::BadNumber);
    }
    let value = digits_value(word) as u64;
    if value < low || high < value {
        return Err(LineWhy::BadNumber);
    }
    Ok(value)
}

/// A place word: `m` is number m on lane 1, `m.l` number m on lane l of 1 to 4. `BadNumber` where
/// the word is none, or its number is above `most`.
pub fn place_word(word: &[u8], most: u64) -> Result<Place, LineWhy>
    requires { most ≤ 64 }
    ensures value { result ≡ place_of most word.now }
    ensures within { IfOk result (λ place. IsBetween 1 4 place.lane × IsBetween 1 most place.number) }
{
    match point_in(word) {
        None => Ok(Place {
            number: number(word, 1, most)? as u32,
            lane: 1,
        }),
        Some(point) => place_with(&word[..point], &word[point + 1..], most),
    }
}

/// The place of a number and a lane.
fn place_with(spelled_number: &[u8], spelled_lane: &[u8], most: u64) -> Result<Place, LineWhy>
    requires { most ≤ 64 }
    ensures value { result
        ≡ place_from (number_in 1 most spelled_number.now) (number_in 1 4 spelled_lane.now) }
    ensures within { IfOk result (λ place. IsBetween 1 4 place.lane × IsBetween 1 most place.number) }
{
    let first = number(spelled_number, 1, most)? as u32;
    let lane = number(spelled_lane, 1, MOST_LANES)? as u32;
    Ok(Place {
        number: first,
        lane,
    })
}

/// Where the first point of a word stands.
fn point_in(word: &[u8]) -> Option<usize>
    ensures place { result ≡ position (λ b. b == 46) word.now }
    ensures inside { IfSome result (λ place. place < length word.now) }
{
    word.iter().position(|byte| *byte == b'.')
}

/// Whether a word is this one.
#[inline]
pub fn is_word(word: &[u8], wanted: &[u8]) -> bool
    ensures { result ≡ bytes_eq word.now wanted.now }
{
    word == wanted
}

/// This word and no other. `BadWord` else.
pub fn literal(word: &[u8], wanted: &[u8]) -> Result<(), LineWhy>
    ensures { result ≡ literal_of wanted.now word.now }
{
    if is_word(word, wanted) {
        return Ok(());
    }
    Err(LineWhy::BadWord)
}

/// A board's id. `BadId` where the word is none.
pub fn identity(word: &[u8]) -> Result<BoardId, LineWhy>
    ensures { result ≡ identity_of word.now }
{
    match BoardId::read(word) {
        Ok(id) => Ok(id),
        Err(_) => Err(LineWhy::BadId),
    }
}

/// A side of a machine: `in` or `out`. `BadSide` else.
pub fn side(word: &[u8]) -> Result<Side, LineWhy>
    ensures { result ≡ side_of word.now }
{
    if is_word(word, b"in") {
        return Ok(Side::Entry);
    }
    if is_word(word, b"out") {
        return Ok(Side::Exit);
    }
    Err(LineWhy::BadSide)
}

/// A quality: `unknown`, `good` or `failed`. `BadWord` else.
pub fn quality(word: &[u8]) -> Result<Quality, LineWhy>
    ensures { result ≡ quality_of word.now }
{
    if is_word(word, b"unknown") {
        return Ok(Quality::Unknown);
    }
    if is_word(word, b"good") {
        return Ok(Quality::Good);
    }
    if is_word(word, b"failed") {
        return Ok(Quality::Failed);
    }
    Err(LineWhy::BadWord)
}

/// A sensor event, by its name. `BadWord` where the word is none.
pub fn event(word: &[u8]) -> Result<SensorEvent, LineWhy>
    ensures { result ≡ event_of word.now }
{
    if is_word(word, b"Begun") {
        return Ok(SensorEvent::Begun);
    }
    if is_word(word, b"Left") {
        return Ok(SensorEvent::Left);
    }
    if is_word(word, b"Full") {
        return Ok(SensorEvent::Full);
    }
    if is_word(word, b"Back") {
        return Ok(SensorEvent::Back);
    }
    if is_word(word, b"Taken") {
        return Ok(SensorEvent::Taken);
    }
    Err(LineWhy::BadWord)
}

/// A signal of a segment: `ready`, `available` or `failed`. `BadWord` else.
pub fn segment_line(word: &[u8]) -> Result<SegmentLine, LineWhy>
    ensures { result ≡ segment_line_of word.now }
{
    if is_word(word, b"ready") {
        return Ok(SegmentLine::Ready);
    }
    if is_word(word, b"available") {
        return Ok(SegmentLine::Available);
    }
    if is_word(word, b"failed") {
        return Ok(SegmentLine::Failed);
    }
    Err(LineWhy::BadWord)
}

/// Whether a signal is switched on: `on` or `off`. `BadWord` else.
pub fn switch(word: &[u8]) -> Result<bool, LineWhy>
    ensures { result ≡ switch_of word.now }
{
    if is_word(word, b"on") {
        return Ok(true);
    }
    if is_word(word, b"off") {
        return Ok(false);
    }
    Err(LineWhy::BadWord)
}

/// What a work order is asked for by: `barcode` or `order`. `BadWord` else.
pub fn asked_by(word: &[u8]) -> Result<AskedBy, LineWhy>
    ensures { result ≡ asked_by_of word.now }
{
    if is_word(word, b"barcode") {
        return Ok(AskedBy::Barcode);
    }
    if is_word(word, b"order") {
        return Ok(AskedBy::Order);
    }
    Err(LineWhy::BadWord)
}

/// The question that asks so for a text.
pub fn question(by: AskedBy, text: Text) -> Question
    ensures { result ≡ question_of by text }
{
    match by {
        AskedBy::Barcode => Question::Barcode(text),
        AskedBy::Order => Question::Order(text),
    }
}

/// A text of at most 64 bytes. `BadWord` where the word is longer.
pub fn token(alloc: Global, word: &[u8]) -> Result<Text, LineError>
    ensures { ReadsToken word.now result }
{
    if word.len() > MOST_TOKEN_BYTES || !is_text(word) {
        return Err(LineError::Refused(LineWhy::BadWord));
    }
    match Text::read(alloc, word) {
        Ok(text) => Ok(text),
        Err(TextError::Memory) => Err(LineError::Memory),
        Err(TextError::TooLong) => unreachable!(),
        Err(TextError::BadChar) => unreachable!(),
    }
}

/// A barcode, where a hyphen alone says that there is none. `BadWord` where the word is longer than
/// 64 bytes.
pub fn barcode(alloc: Global, word: &[u8]) -> Result<Option<Text>, LineError>
    ensures { Reads (barcode_of word.now) result }
{
    match token(alloc, word) {
        Ok(text) => Ok(barcode_in(text)),
        Err(error) => Err(error),
    }
}

fn barcode_in(text: Text) -> Option<Text>
    ensures { result ≡ barcode_in text }
{
    if is_word(text.bytes(), b"-") {
        return None;
    }
    Some(text)
}
