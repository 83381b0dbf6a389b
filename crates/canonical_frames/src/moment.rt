ghost use Rattle.std.specs.Prelude.{◌≡◌, ◌∷◌, ◌<◌, [], IfSome, IsTrue};
ghost use Rattle.line_base.specs.Moment.{two_digits as two_of};
ghost use Rattle.canonical_frames.specs.Pieces.{IsValue};
ghost use Rattle.canonical_frames.specs.Values.{IsDate, IsDay, IsTime, IsTwo, IsMilli};
ghost use Rattle.hermes_horizontal.specs.Values.{moment};

use crate::front::{behind, behind_one, behind_quote};
use jiff_core::civil::days_in_month;

/// What is behind a moment, `YYYY-MM-DDThh:mm:ss.mmm` of a calendar and a clock, and its quote.
pub fn behind_moment(bytes: &[u8]) -> Option<&[u8]>
    ensures { IfSome result (λ rest. IsValue moment bytes.now rest.now) }
{
    let time = behind_date(bytes)?;
    let rest = behind_time(time)?;
    Some(rest)
}

/// What is behind a date and its `T`.
fn behind_date(bytes: &[u8]) -> Option<&[u8]>
    ensures { IfSome result (λ rest. IsDate bytes.now rest.now) }
{
    let century = behind_two(bytes)?;
    let year = behind_two(century.rest)?;
    let at_month = behind(b"-", year.rest)?;
    let month = behind_two(at_month)?;
    let at_day = behind(b"-", month.rest)?;
    let day = behind_two(at_day)?;
    let rest = behind(b"T", day.rest)?;
    if !has_day(
        century.number as u16 * 100 + year.number as u16,
        month.number,
        day.number,
    ) {
        return None;
    }
    Some(rest)
}

/// Whether the calendar has this date in the years 1 to 9999.
fn has_day(year: u16, month: u8, day: u8) -> bool
    requires { year < 10_000 }
    ensures { IsTrue result → IsDay year month day }
{
    1 <= year && 1 <= month && month <= 12 && 1 <= day && day <= days_in_month(year as i16, month)
}

/// What is behind a time of day and the quote that follows it.
fn behind_time(bytes: &[u8]) -> Option<&[u8]>
    ensures { IfSome result (λ rest. IsTime bytes.now rest.now) }
{
    let hour = behind_two(bytes)?;
    let at_minute = behind(b":", hour.rest)?;
    let minute = behind_two(at_minute)?;
    let at_second = behind(b":", minute.rest)?;
    let second = behind_two(at_second)?;
    let at_milli = behind(b".", second.rest)?;
    let quote = behind_milli(at_milli)?;
    let rest = behind_quote(quote)?;
    if is_time(hour.number, minute.number, second.number) {
        Some(rest)
    } else {
        None
    }
}

fn is_time(hour: u8, minute: u8, second: u8) -> bool
    ensures { IsTrue result → (hour < 24) × (minute < 60) × (second < 60) }
{
    hour < 24 && minute < 60 && second < 60
}

/// What is behind three digits.
fn behind_milli(bytes: &[u8]) -> Option<&[u8]>
    ensures { IfSome result (λ rest. IsMilli bytes.now rest.now) }
{
    let front = behind_two(bytes)?;
    let last = behind_one(front.rest)?;
    if !last.byte.is_ascii_digit() {
        return None;
    }
    Some(last.rest)
}

/// The number of two digits, and what is behind them.
#[derive(Clone, Copy)]
struct Two<'a> {
    number: u8,
    rest: &'a [u8],
}

/// The number of two digits at the front, and what is behind them.
fn behind_two(bytes: &[u8]) -> Option<Two<'_>>
    ensures { IfSome result (λ two. IsTwo bytes.now two.number two.rest.now) }
{
    let first = behind_one(bytes)?;
    let second = behind_one(first.rest)?;
    let number = two_digits(first.byte, second.byte)?;
    Some(Two {
        number,
        rest: second.rest,
    })
}

/// The number of two digits.
fn two_digits(first: u8, second: u8) -> Option<u8>
    ensures below { IfSome result (λ number. number < 100) }
    ensures digits { IfSome result (λ number. first ∷ second ∷ [] ≡ two_of number) }
{
    if first.is_ascii_digit() && second.is_ascii_digit() {
        Some((first - b'0') * 10 + (second - b'0'))
    } else {
        None
    }
}
