ghost use Rattle.std.specs.Prelude.{◌≡◌, ◌↔◌, List, ℕ, IfOk, IsTrue, OnErr, OnOk, decimal, true};
ghost use Rattle.std.specs.List.{list_all};
ghost use Rattle.std.specs.Str.{bytes_eq, chars};
ghost use Rattle.line_base.specs.Text.{IsAllowed, IsText, ReadsText, is_allowed_char};
ghost use Rattle.line_base.specs.PlainText.{is_plain_byte, is_plain_text};

use crate::memory::Memory;
use itoa::Buffer;
use smallvec::SmallVec;
use std::alloc::Global;
use std::marker::Model;
use std::str;

/// The most bytes that a text may have.
pub const MOST_TEXT_BYTES: usize = 1024;

/// A text of at most so many bytes takes no memory. A machine's id, a product type and many a barcode
/// are no longer. A longer room would be moved with each record, which costs more than the memory
/// that the others take.
const INLINE_BYTES: usize = 16;

/// Text of allowed characters, in UTF-8, of at most 1,024 bytes.
#[derive(Debug, Drop)]
pub struct Text {
    bytes: SmallVec<u8, INLINE_BYTES>,
}

impl Model for Text {
    ghost Value = { List ℕ };

    ghost view = { λ text. text.bytes.items };

    ghost invariant = { λ text. IsText text.bytes.items };
}

/// Why bytes are no text.
#[derive(Clone, Copy, Debug, PartialEq, Eq)]
pub enum TextError {
    /// There are more than 1,024 bytes.
    TooLong,
    /// They are not UTF-8 of allowed characters.
    BadChar,
    Memory,
}

impl PartialEq for Text {
    ghost use Rattle.std.proofs.Common.{rules};

    ghost eq = { bytes_eq };

    ghost laws = { Prim.search rules };

    fn eq(&self, other: &Text) -> bool {
        self.bytes.as_slice() == other.bytes.as_slice()
    }
}

impl Eq for Text {
    ghost use Rattle.std.proofs.Common.{rules};

    ghost laws = { Prim.search rules };
}

impl Text {
    /// Reads bytes as a text. Refuses them, in this order, as too long, as no text, and where
    /// memory is wanting.
    pub fn read(alloc: Global, bytes: &[u8]) -> Result<Text, TextError>
        ensures { ReadsText bytes.now result }
    {
        if bytes.len() > MOST_TEXT_BYTES {
            return Err(TextError::TooLong);
        }
        if !is_allowed_text(bytes) {
            return Err(TextError::BadChar);
        }
        match SmallVec::from_slice(alloc, bytes) {
            Ok(bytes) => Ok(Text { bytes }),
            Err(_) => Err(TextError::Memory),
        }
    }

    /// The text that these bytes are.
    #[inline]
    pub fn of(alloc: Global, bytes: &[u8]) -> Result<Text, Memory>
        requires { IsText bytes.now }
        ensures { IfOk result (λ text. text ≡ bytes.now) }
    {
        if bytes.len() > INLINE_BYTES {
            return Text::of_many(alloc, bytes);
        }
        let mut copy = SmallVec::new(alloc);
        match copy.extend_from_slice(bytes) {
            Ok(()) => Ok(Text { bytes: copy }),
            Err(_) => Err(Memory),
        }
    }

    /// The text of more bytes than are kept inline. Apart, so that copying the others is inlined.
    #[cold]
    #[inline(never)]
    fn of_many(alloc: Global, bytes: &[u8]) -> Result<Text, Memory>
        requires { IsText bytes.now }
        ensures { IfOk result (λ text. text ≡ bytes.now) }
    {
        match SmallVec::from_slice(alloc, bytes) {
            Ok(bytes) => Ok(Text { bytes }),
            Err(_) => Err(Memory),
        }
    }

    /// The text of these bytes of printable ASCII. A literal meets the condition as it stands;
    /// `is_plain_text` tells whether other bytes do.
    #[tactic(auto, using(crate::proofs::Printable::plain_is_text))]
    pub fn plain(alloc: Global, bytes: &[u8]) -> Result<Text, Memory>
        requires { is_plain_text bytes.now ≡ true }
        ensures { IfOk result (λ text. text ≡ bytes.now) }
    {
        Text::of(alloc, bytes)
    }

    /// The text of a number, in decimal digits without leading zeros.
    #[tactic(auto, using(crate::proofs::Printable::number_is_text))]
    pub fn number(alloc: Global, number: u64) -> Result<Text, Memory>
        ensures { IfOk result (λ text. text ≡ decimal number) }
    {
        let mut room = Buffer::new();
        Text::of(alloc, room.format(number).as_bytes())
    }

    /// An equal text of its own.
    pub fn copy(&self, alloc: Global) -> Result<Text, Memory>
        ensures { IfOk result (λ text. text ≡ self.now) }
    {
        match SmallVec::from_slice(alloc, self.bytes.as_slice()) {
            Ok(bytes) => Ok(Text { bytes }),
            Err(_) => Err(Memory),
        }
    }

    /// Its bytes.
    #[inline]
    pub fn bytes(&self) -> &[u8]
        ensures bytes { result.now ≡ self.now }
        ensures text { IsText self.now }
    {
        self.bytes.as_slice()
    }
}

/// An equal text of its own, if there is one.
pub fn copied_text(alloc: Global, text: &Option<Text>) -> Result<Option<Text>, Memory>
    ensures { IfOk result (λ copy. copy ≡ text.now) }
{
    match text {
        Some(text) => Ok(Some(text.copy(alloc)?)),
        None => Ok(None),
    }
}

/// Puts an equal text, if there is one, in the place of another; where memory is wanting the place
/// is as it was. The text before is let go here alone, which a caller with many places needn't prove.
pub fn take_text(alloc: Global, text: &Option<Text>, place: &mut Option<Text>) -> Result<(), Memory>
    ensures taken { OnOk result (place.new ≡ text.now) }
    ensures unchanged { OnErr result (place.new ≡ place.old) }
{
    *place = copied_text(alloc, text)?;
    Ok(())
}

/// Whether a character may stand in a text.
pub fn is_allowed_char(c: char) -> bool
    ensures { result ≡ is_allowed_char c }
{
    matches!(c, '\t' | '\n' | '\r' | ' '..='\u{D7FF}' | '\u{E000}'..='\u{FFFD}' | '\u{10000}'..='\u{10FFFF}')
}

/// Whether bytes are printable ASCII, and at most 1,024 of it.
pub fn is_plain_text(bytes: &[u8]) -> bool
    ensures { result ≡ is_plain_text bytes.now }
{
    are_plain(bytes) && bytes.len() <= MOST_TEXT_BYTES
}

fn are_plain(bytes: &[u8]) -> bool
    ensures { result ≡ list_all is_plain_byte bytes.now }
{
    bytes.iter().all(|byte| matches!(*byte, b' '..=b'~'))
}

fn is_allowed_text(bytes: &[u8]) -> bool
    ensures { IsTrue result ↔ IsAllowed bytes.now }
{
    match str::from_utf8(bytes) {
        Ok(text) => has_allowed_chars(text),
        Err(_) => false,
    }
}

fn has_allowed_chars(text: &str) -> bool
    ensures { result ≡ list_all is_allowed_char (chars text.now) }
{
    text.chars().all(|c| is_allowed_char(c))
}
