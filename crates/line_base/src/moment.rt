ghost use Rattle.std.specs.Prelude.{◌≡◌, ◌+◌, ◌^◌, ◌<◌, ◌≤◌, ◌++◌, List, ℕ, ℤ, IsTrue, IfOk, OnOk, OnErr, length, take, drop};
ghost use Rattle.line_base.specs.Number.{are_digits};
ghost use Rattle.line_base.specs.Moment.{IsMomentMillis, IsMomentText, fits, has_form, number_at, is_offset, milli_of, millis_of, moment_of, moment_text, fields_of_text, seconds_form, IsShown};

use crate::civil::Fields;
use crate::memory::Memory;
use crate::number::{digits_value, read_fraction};
use std::marker::Model;

/// The form of a date and a time of day, `d` for a digit.
const SECONDS_FORM: &[u8] = b"dddd-dd-ddTdd:dd:dd";

/// A moment on a civil clock of the years 1 to 9999, in milliseconds since
/// 1970-01-01T00:00:00.000.
#[derive(Clone, Copy, Debug, PartialEq, Eq, PartialOrd, Ord, Hash)]
pub struct Moment {
    millis: i64,
}

impl Model for Moment {
    ghost use Rattle.std.specs.Prelude.{ℤ};
    ghost use Rattle.line_base.specs.Moment.{IsMomentMillis};

    ghost Value = { ℤ };

    ghost view = { λ moment. moment.millis };

    ghost invariant = { λ moment. IsMomentMillis moment.millis };

    ghost inverse = { λ millis. record { millis = millis } };
}

/// The bytes are no text of a moment.
#[derive(Clone, Copy, Debug, PartialEq, Eq)]
pub struct BadMoment;

impl Moment {
    /// The moment so many milliseconds after 1970-01-01T00:00:00.000, or before it where they are
    /// negative.
    pub fn of_millis(millis: i64) -> Moment
        requires { IsMomentMillis millis }
        ensures { result ≡ millis }
    {
        Moment { millis }
    }

    /// Reads `YYYY-MM-DDThh:mm:ss`, perhaps with a point and 1 to 9 digits, perhaps with `Z` or an
    /// offset `+hh:mm` or `-hh:mm`, which is passed over. Digits after the third are dropped.
    /// Refuses all else, and dates and times that no calendar or clock has.
    // Inlined, it asks at each byte whether a text's bytes lie in the text itself.
    #[inline(never)]
    #[tactic(auto, unfolding(crate::specs::Moment::moment_of))]
    pub fn read(bytes: &[u8]) -> Result<Moment, BadMoment>
        ensures same { result ≡ moment_of bytes.now }
        ensures found { IfOk result (λ millis. IsMomentText bytes.now millis) }
        ensures only { (millis : ℤ) → IsMomentText bytes.now millis → result ≡ Ok millis }
    {
        match read_millis(bytes) {
            Some(millis) => Ok(Moment { millis }),
            None => Err(BadMoment),
        }
    }

    /// Writes it as `YYYY-MM-DDThh:mm:ss.mmm`, or leaves `to` as it was where memory is wanting.
    /// That text is read as this moment.
    pub fn write(self, to: &mut Vec<u8>) -> Result<(), Memory>
        ensures text { OnOk result (to.new.items ≡ to.old.items ++ moment_text self) }
        ensures unchanged { OnErr result (to.new.items ≡ to.old.items) }
        ensures reads_back { moment_of (moment_text self) ≡ Ok self }
    {
        let text = Fields::at(self.millis()).text();
        match to.extend_from_slice(&text) {
            Ok(()) => Ok(()),
            Err(_) => Err(Memory),
        }
    }

    /// The milliseconds since 1970-01-01T00:00:00.000.
    pub fn millis(self) -> i64
        ensures same { result ≡ self }
        ensures bounded { IsMomentMillis result }
    {
        self.millis
    }
}

fn read_millis(bytes: &[u8]) -> Option<i64>
    ensures { result ≡ millis_of bytes.now }
{
    let (seconds, rest) = bytes.split_at(SECONDS_FORM.len().min(bytes.len()));
    if !has_form(SECONDS_FORM, seconds) {
        return None;
    }
    match read_fraction(rest, 9) {
        Some((fraction, offset)) if is_offset(offset) => shown_fields(seconds, fraction).count(),
        _ => None,
    }
}

fn shown_fields(seconds: &[u8], fraction: &[u8]) -> Fields
    requires form { IsTrue (has_form seconds_form seconds.now) }
    requires digits { IsTrue (are_digits fraction.now) }
    ensures same { result ≡ fields_of_text seconds.now fraction.now }
    ensures shown { IsShown result }
{
    Fields {
        year: number_at(seconds, 0, 4),
        month: number_at(seconds, 5, 2),
        day: number_at(seconds, 8, 2),
        hour: number_at(seconds, 11, 2),
        minute: number_at(seconds, 14, 2),
        second: number_at(seconds, 17, 2),
        milli: milli_of(fraction),
    }
}

/// The number in `count` digits at `place`.
fn number_at(bytes: &[u8], place: usize, count: usize) -> u32
    requires within { place + count ≤ length bytes.now }
    requires digits { IsTrue (are_digits (take count (drop place bytes.now))) }
    requires few { count ≤ 9 }
    ensures same { result ≡ number_at place count bytes.now }
    ensures below { result < 10 ^ count }
{
    digits_value(&bytes[place..place + count]) as u32
}

/// The first three digits of a fraction, as if zeros followed.
fn milli_of(fraction: &[u8]) -> u32
    requires { IsTrue (are_digits fraction.now) }
    ensures same { result ≡ milli_of fraction.now }
    ensures below { result < 1_000 }
{
    match fraction.len() {
        0 => 0,
        1 => number_at(fraction, 0, 1) * 100,
        2 => number_at(fraction, 0, 2) * 10,
        _ => number_at(fraction, 0, 3),
    }
}

fn is_offset(bytes: &[u8]) -> bool
    ensures { result ≡ is_offset bytes.now }
{
    if bytes.is_empty() || bytes == b"Z".as_slice() {
        return true;
    }
    if !has_form(b"+dd:dd", bytes) && !has_form(b"-dd:dd", bytes) {
        return false;
    }
    number_at(bytes, 1, 2) < 24 && number_at(bytes, 4, 2) < 60
}

/// Whether the bytes have a form, in which `d` stands for a digit and any other byte for itself.
fn has_form(form: &[u8], bytes: &[u8]) -> bool
    ensures { result ≡ has_form form.now bytes.now }
{
    form.len() == bytes.len()
        && form
            .iter()
            .zip(bytes)
            .all(|(form, byte)| fits(*form, *byte))
}

fn fits(form: u8, byte: u8) -> bool
    ensures { result ≡ fits form byte }
{
    if form == b'd' {
        byte.is_ascii_digit()
    } else {
        form == byte
    }
}
