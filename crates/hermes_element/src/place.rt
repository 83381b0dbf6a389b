ghost use Rattle.std.specs.Prelude.{◌≡◌, ℕ, ◌+◌, ◌^◌, ◌<◌, ◌≤◌, ◌==◌, cond, Some, IfSome};
ghost use Rattle.line_base.specs.Text.{is_allowed_char};
ghost use Rattle.hermes_element.specs.Plain.{is_blank};
ghost use Rattle.hermes_element.specs.Machine.{step, step_tag, step_equals, step_end, step_value, step_escape, only_if, to_if, with_open, share, is_wide_begun, wide, wide_start, wide_next, after_element};
ghost use Rattle.hermes_element.specs.declared.place.Place.TheVariants as places;

use crate::bytes::{is_blank, is_declared, is_digit, is_hex_digit, is_letter, is_quote};
use line_base::{is_allowed_char, is_name_byte, is_name_start};

/// Where in a document of the plain form some bytes end.
#[derive(Clone, Copy)]
pub(crate) enum Place {
    /// Before the first byte.
    Start,
    /// `<` as the first byte.
    First,
    /// `<?`, and then each letter of `xml`.
    Question,
    DeclarationX,
    DeclarationM,
    DeclarationL,
    /// In a declaration, behind its first blank, and behind the `?` that ends it.
    Declaration,
    DeclarationEnd,
    /// Before the root's `<`, behind the first byte.
    Prolog,
    /// Behind a later `<`.
    Open,
    /// In the name of a start tag.
    Name,
    /// Behind a blank of a start tag.
    Gap,
    /// In the name of an attribute, behind it, and behind `=`.
    Key,
    Equals,
    Before,
    /// In a value of this quote.
    Value(u8),
    /// In a character of several bytes: the least number that so many bytes may spell, the bits so
    /// far, and how many bytes are to come.
    Wide(u8, u32, u32, u8),
    /// In an escape: behind `&`, in its letters, behind `&#`, in its digits, behind `&#x`, in its
    /// hexadecimal digits.
    Ampersand(u8),
    Letters(u8),
    Hash(u8),
    Digits(u8),
    HexStart(u8),
    HexDigits(u8),
    /// Behind a value.
    Quoted,
    /// Behind the `/` of a start tag.
    Slash,
    /// Between the tags of an open element.
    Content,
    /// Behind `</`, in the end tag's name, and behind it.
    Close,
    EndName,
    EndGap,
    /// Behind the root.
    End,
}

/// The place behind one more byte, and how many elements are open there, where some document goes
/// on so.
pub(crate) fn step(from: Place, depth: usize, byte: u8) -> Option<(Place, usize)>
    requires { depth + 1 < 2 ^ 64 }
    ensures value { result ≡ step from depth byte }
    ensures depth { IfSome result (λ to. to.1 ≤ depth + 1) }
{
    match from {
        Place::Start => step_between(Place::Prolog, Place::First, depth, byte),
        Place::First => step_first(depth, byte),
        Place::Question => to_if(byte == b'x', Place::DeclarationX, depth),
        Place::DeclarationX => to_if(byte == b'm', Place::DeclarationM, depth),
        Place::DeclarationM => to_if(byte == b'l', Place::DeclarationL, depth),
        Place::DeclarationL => to_if(is_blank(byte), Place::Declaration, depth),
        Place::Declaration => step_declaration(depth, byte),
        Place::DeclarationEnd => to_if(byte == b'>', Place::Prolog, depth),
        Place::Prolog => step_between(Place::Prolog, Place::Open, depth, byte),
        Place::Open => step_open(depth, byte),
        Place::Name => step_name(depth, byte),
        Place::Gap => step_gap(depth, byte),
        Place::Key => step_key(depth, byte),
        Place::Equals => step_equals(depth, byte),
        Place::Before => step_before(depth, byte),
        Place::Value(quote) => with_open(depth, step_value(quote, byte)),
        Place::Wide(quote, floor, bits, left) => {
            with_open(depth, wide_next(quote, floor, bits, left, byte))
        }
        Place::Ampersand(_)
        | Place::Letters(_)
        | Place::Hash(_)
        | Place::Digits(_)
        | Place::HexStart(_)
        | Place::HexDigits(_) => with_open(depth, step_escape(from, byte)),
        Place::Quoted => step_tag(depth, byte),
        Place::Slash => to_if(byte == b'>', after_element(depth), depth),
        Place::Content => step_between(Place::Content, Place::Open, depth, byte),
        Place::Close => to_if(is_name_start(byte), Place::EndName, depth),
        Place::EndName => step_end_name(depth, byte),
        Place::EndGap => step_end(depth, byte),
        Place::End => None,
    }
}

/// Outside of tags, where a blank and a `<` may come.
fn step_between(blank: Place, opened: Place, depth: usize, byte: u8) -> Option<(Place, usize)>
    ensures value { result ≡ cond (is_blank byte) (Some (blank, depth)) (to_if (byte == 60) opened depth) }
    ensures depth { IfSome result (λ to. to.1 ≤ depth) }
{
    if is_blank(byte) {
        return Some((blank, depth));
    }
    to_if(byte == b'<', opened, depth)
}

/// Behind the `<` that is the first byte.
fn step_first(depth: usize, byte: u8) -> Option<(Place, usize)>
    ensures value { result ≡ step places.First depth byte }
    ensures depth { IfSome result (λ to. to.1 ≤ depth) }
{
    if byte == b'?' {
        return Some((Place::Question, depth));
    }
    to_if(is_name_start(byte), Place::Name, depth)
}

/// In a declaration, behind its first blank.
fn step_declaration(depth: usize, byte: u8) -> Option<(Place, usize)>
    ensures value { result ≡ step places.Declaration depth byte }
    ensures depth { IfSome result (λ to. to.1 ≤ depth) }
{
    if byte == b'?' {
        return Some((Place::DeclarationEnd, depth));
    }
    to_if(is_declared(byte), Place::Declaration, depth)
}

/// Behind a later `<`.
fn step_open(depth: usize, byte: u8) -> Option<(Place, usize)>
    ensures value { result ≡ step places.Open depth byte }
    ensures depth { IfSome result (λ to. to.1 ≤ depth) }
{
    if byte == b'/' {
        return to_if(depth > 0, Place::Close, depth);
    }
    to_if(is_name_start(byte), Place::Name, depth)
}

/// In the name of a start tag.
fn step_name(depth: usize, byte: u8) -> Option<(Place, usize)>
    requires { depth + 1 < 2 ^ 64 }
    ensures value { result ≡ step places.Name depth byte }
    ensures depth { IfSome result (λ to. to.1 ≤ depth + 1) }
{
    if is_name_byte(byte) {
        return Some((Place::Name, depth));
    }
    step_tag(depth, byte)
}

/// Behind a blank of a start tag.
fn step_gap(depth: usize, byte: u8) -> Option<(Place, usize)>
    requires { depth + 1 < 2 ^ 64 }
    ensures value { result ≡ step places.Gap depth byte }
    ensures depth { IfSome result (λ to. to.1 ≤ depth + 1) }
{
    if is_name_start(byte) {
        return Some((Place::Key, depth));
    }
    step_tag(depth, byte)
}

/// In the name of an attribute.
fn step_key(depth: usize, byte: u8) -> Option<(Place, usize)>
    ensures value { result ≡ step places.Key depth byte }
    ensures depth { IfSome result (λ to. to.1 ≤ depth) }
{
    if is_name_byte(byte) {
        return Some((Place::Key, depth));
    }
    step_equals(depth, byte)
}

/// Behind the `=` of an attribute.
fn step_before(depth: usize, byte: u8) -> Option<(Place, usize)>
    ensures value { result ≡ step places.Before depth byte }
    ensures depth { IfSome result (λ to. to.1 ≤ depth) }
{
    if is_blank(byte) {
        return Some((Place::Before, depth));
    }
    to_if(is_quote(byte), Place::Value(byte), depth)
}

/// In an end tag's name.
fn step_end_name(depth: usize, byte: u8) -> Option<(Place, usize)>
    ensures value { result ≡ step places.EndName depth byte }
    ensures depth { IfSome result (λ to. to.1 ≤ depth) }
{
    if is_name_byte(byte) {
        return Some((Place::EndName, depth));
    }
    step_end(depth, byte)
}

fn to_if(test: bool, place: Place, depth: usize) -> Option<(Place, usize)>
    ensures value { result ≡ to_if test place depth }
    ensures depth { IfSome result (λ to. to.1 ≤ depth) }
{
    if test { Some((place, depth)) } else { None }
}

fn only_if(test: bool, place: Place) -> Option<Place>
    ensures { result ≡ only_if test place }
{
    if test { Some(place) } else { None }
}

fn with_open(depth: usize, place: Option<Place>) -> Option<(Place, usize)>
    ensures value { result ≡ with_open depth place }
    ensures depth { IfSome result (λ to. to.1 ≤ depth) }
{
    match place {
        Some(place) => Some((place, depth)),
        None => None,
    }
}

/// The place behind an element whose ancestors are `depth`.
pub(crate) fn after_element(depth: usize) -> Place
    ensures { result ≡ after_element depth }
{
    if depth == 0 {
        return Place::End;
    }
    Place::Content
}

/// In a start tag, where a name or a value has ended.
fn step_tag(depth: usize, byte: u8) -> Option<(Place, usize)>
    requires { depth + 1 < 2 ^ 64 }
    ensures value { result ≡ step_tag depth byte }
    ensures depth { IfSome result (λ to. to.1 ≤ depth + 1) }
{
    if is_blank(byte) {
        return Some((Place::Gap, depth));
    }
    if byte == b'/' {
        return Some((Place::Slash, depth));
    }
    if byte == b'>' {
        return Some((Place::Content, depth + 1));
    }
    None
}

/// Where an attribute's name has ended.
fn step_equals(depth: usize, byte: u8) -> Option<(Place, usize)>
    ensures value { result ≡ step_equals depth byte }
    ensures depth { IfSome result (λ to. to.1 ≤ depth) }
{
    if is_blank(byte) {
        return Some((Place::Equals, depth));
    }
    to_if(byte == b'=', Place::Before, depth)
}

/// Where an end tag's name has ended.
fn step_end(depth: usize, byte: u8) -> Option<(Place, usize)>
    ensures value { result ≡ step_end depth byte }
    ensures depth { IfSome result (λ to. to.1 ≤ depth) }
{
    if is_blank(byte) {
        return Some((Place::EndGap, depth));
    }
    let outside = depth.saturating_sub(1);
    to_if(byte == b'>', after_element(outside), outside)
}

/// In a value.
fn step_value(quote: u8, byte: u8) -> Option<Place>
    ensures { result ≡ step_value quote byte }
{
    if byte == quote {
        return Some(Place::Quoted);
    }
    if byte == b'&' {
        return Some(Place::Ampersand(quote));
    }
    if byte == b'<' {
        return None;
    }
    if byte < 128 {
        return only_if(is_allowed_char(char::from(byte)), Place::Value(quote));
    }
    wide_start(quote, byte)
}

/// In an escape.
fn step_escape(from: Place, byte: u8) -> Option<Place>
    ensures { result ≡ step_escape from byte }
{
    match from {
        Place::Ampersand(quote) => {
            if byte == b'#' {
                return Some(Place::Hash(quote));
            }
            only_if(is_letter(byte), Place::Letters(quote))
        }
        Place::Letters(quote) => {
            if byte == b';' {
                return Some(Place::Value(quote));
            }
            only_if(is_letter(byte), Place::Letters(quote))
        }
        Place::Hash(quote) => {
            if byte == b'x' {
                return Some(Place::HexStart(quote));
            }
            only_if(is_digit(byte), Place::Digits(quote))
        }
        Place::Digits(quote) => {
            if byte == b';' {
                return Some(Place::Value(quote));
            }
            only_if(is_digit(byte), Place::Digits(quote))
        }
        Place::HexStart(quote) => only_if(is_hex_digit(byte), Place::HexDigits(quote)),
        Place::HexDigits(quote) => {
            if byte == b';' {
                return Some(Place::Value(quote));
            }
            only_if(is_hex_digit(byte), Place::HexDigits(quote))
        }
        _ => None,
    }
}

/// How many characters share their bits where so many bytes are to come.
fn share(left: u8) -> u64
    ensures value { result ≡ share left }
    ensures bound { result ≤ 262144 }
{
    match left {
        0 => 1,
        1 => 64,
        2 => 4096,
        _ => 262_144,
    }
}

/// Whether some allowed character of at least `floor` has these bits in front.
fn is_wide_begun(floor: u32, bits: u32, left: u8) -> bool
    ensures { result ≡ is_wide_begun floor bits left }
{
    let share = share(left);
    let bits = u64::from(bits);
    let least = u64::from(floor).max(bits * share);
    least < (bits + 1) * share && is_allowed_number(least)
}

/// Whether a number is that of an allowed character.
fn is_allowed_number(number: u64) -> bool
    ensures { result ≡ is_allowed_char number }
{
    matches!(number, 9 | 10 | 13 | 0x20..=0xD7FF | 0xE000..=0xFFFD | 0x10000..=0x10FFFF)
}

/// In a character of several bytes, or behind it.
fn wide(quote: u8, floor: u32, bits: u32, left: u8) -> Option<Place>
    ensures { result ≡ wide quote floor bits left }
{
    if !is_wide_begun(floor, bits, left) {
        return None;
    }
    if left == 0 {
        return Some(Place::Value(quote));
    }
    Some(Place::Wide(quote, floor, bits, left))
}

/// The first byte of a character of several bytes.
pub(crate) fn wide_start(quote: u8, byte: u8) -> Option<Place>
    ensures { result ≡ wide_start quote byte }
{
    if byte < 192 {
        return None;
    }
    if byte < 224 {
        return wide(quote, 128, u32::from(byte - 192), 1);
    }
    if byte < 240 {
        return wide(quote, 2048, u32::from(byte - 224), 2);
    }
    wide(quote, 65536, u32::from(byte - 240), 3)
}

/// A later byte of one.
pub(crate) fn wide_next(quote: u8, floor: u32, bits: u32, left: u8, byte: u8) -> Option<Place>
    ensures { result ≡ wide_next quote floor bits left byte }
{
    if byte >= 128 && byte < 192 && bits < 131_072 {
        return wide(
            quote,
            floor,
            bits * 64 + u32::from(byte - 128),
            left.saturating_sub(1),
        );
    }
    None
}
