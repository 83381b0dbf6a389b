ghost use Rattle.std.specs.Prelude.{◌≡◌, ◌+◌, ◌-◌, ◌*◌, ◌/◌, ◌^◌, ◌<◌, ◌≤◌, ◌∷◌, ◌++◌, ℕ, IfOk, IfSome, OnOk, OnErr, take, drop, decimal};
ghost use Rattle.std.specs.Int.{IsInRange};
ghost use Rattle.line_base.specs.Number.{IsDigits, value_of, fraction_text};
ghost use Rattle.line_base.specs.Decimal.{IsDecimalText, decimal_of, decimal_text, millionths_of, scaled, exponent_of, signed_power_of, power_of, nearest, limited, six_digits, without_trailing_zeros};

use crate::memory::Memory;
use crate::number::{digit, digits_value, is_digits, read_fraction, split_digits};
use std::marker::Model;

/// From so many millionths on a decimal is refused.
const LIMIT: u128 = 1_000_000_000_000;

/// A decimal number, counted in millionths, below 10^12 of them.
#[derive(Clone, Copy, Debug, PartialEq, Eq, Hash)]
pub struct Decimal {
    millionths: u64,
}

impl Model for Decimal {
    ghost use Rattle.std.specs.Prelude.{◌<◌, ℕ};

    ghost Value = { ℕ };

    ghost view = { λ decimal. decimal.millionths };

    ghost invariant = { λ decimal. decimal.millionths < 1_000_000_000_000 };

    ghost inverse = { λ millionths. record { millionths = millionths } };
}

/// The bytes are no text of a decimal below a million.
#[derive(Clone, Copy, Debug, PartialEq, Eq)]
pub struct BadDecimal;

impl Decimal {
    /// Reads 1 to 18 digits, perhaps a point and 1 to 20 digits, perhaps `e` or `E`, a sign or
    /// none, and 1 or 2 digits. Its millionths are the nearest whole number to a million times the
    /// value, a half going up. Refuses all else, and what comes to a million or more.
    #[tactic(auto, unfolding(crate::specs::Decimal::decimal_of))]
    pub fn read(bytes: &[u8]) -> Result<Decimal, BadDecimal>
        ensures same { result ≡ decimal_of bytes.now }
        ensures found { IfOk result (λ millionths. IsDecimalText bytes.now millionths) }
        ensures only { (millionths : ℕ) → IsDecimalText bytes.now millionths
            → result ≡ Ok millionths }
    {
        match read_millionths(bytes) {
            Some(millionths) => Ok(Decimal { millionths }),
            None => Err(BadDecimal),
        }
    }

    /// Writes the whole part, and where the rest isn't zero a point and its digits without
    /// trailing zeros. Leaves `to` as it was where memory is wanting. That text is read as this
    /// decimal.
    pub fn write(self, to: &mut Vec<u8>) -> Result<(), Memory>
        ensures text { OnOk result (to.new.items ≡ to.old.items ++ decimal_text self) }
        ensures unchanged { OnErr result (to.new.items ≡ to.old.items) }
        ensures reads_back { decimal_of (decimal_text self) ≡ Ok self }
    {
        let millionths = self.millionths();
        let whole = (millionths / 1_000_000) as u32;
        let rest = (millionths % 1_000_000) as u32;
        let digits = all_digits(whole, rest);
        let text = &digits[whole_start(whole)..rest_end(rest)];
        match to.extend_from_slice(text) {
            Ok(()) => Ok(()),
            Err(_) => Err(Memory),
        }
    }

    /// How many millionths it has.
    pub fn millionths(self) -> u64
        ensures same { result ≡ self }
        ensures bounded { result < 1_000_000_000_000 }
    {
        self.millionths
    }
}

fn read_millionths(bytes: &[u8]) -> Option<u64>
    ensures { result ≡ millionths_of bytes.now }
{
    let (whole, rest) = split_digits(bytes);
    if !is_digits(whole, 1, 18) {
        return None;
    }
    match read_fraction(rest, 20) {
        Some((fraction, rest)) => read_scaled(whole, fraction, rest),
        None => None,
    }
}

/// The millionths of digits before and behind the point, with the exponent that follows.
fn read_scaled(whole: &[u8], fraction: &[u8], rest: &[u8]) -> Option<u64>
    requires whole { IsDigits 1 18 whole.now }
    requires fraction { IsDigits 0 20 fraction.now }
    ensures { result ≡ scaled whole.now fraction.now (exponent_of rest.now) }
{
    match read_exponent(rest) {
        Some((raise, lower)) => nearest_millionths(
            joined_value(whole, fraction),
            raise,
            fraction.len() + lower,
        ),
        None => None,
    }
}

/// By how many powers of ten an exponent raises the value, and by how many it lowers it.
fn read_exponent(bytes: &[u8]) -> Option<(usize, usize)>
    ensures same { result ≡ exponent_of bytes.now }
    ensures small { IfSome result (λ powers. (powers.0 < 100) × (powers.1 < 100)) }
{
    match bytes {
        [] => Some((0, 0)),
        [b'e' | b'E', signed @ ..] => read_signed_power(signed),
        _ => None,
    }
}

fn read_signed_power(bytes: &[u8]) -> Option<(usize, usize)>
    ensures same { result ≡ signed_power_of bytes.now }
    ensures small { IfSome result (λ powers. (powers.0 < 100) × (powers.1 < 100)) }
{
    match bytes {
        [b'-', digits @ ..] => Some((0, read_power(digits)?)),
        [b'+', digits @ ..] => Some((read_power(digits)?, 0)),
        digits => Some((read_power(digits)?, 0)),
    }
}

fn read_power(bytes: &[u8]) -> Option<usize>
    ensures same { result ≡ power_of bytes.now }
    ensures small { IfSome result (λ power. power < 100) }
{
    if is_digits(bytes, 1, 2) {
        Some(digits_value(bytes) as usize)
    } else {
        None
    }
}

/// The value of the digits before and behind the point, read as one number.
fn joined_value(whole: &[u8], fraction: &[u8]) -> u128
    requires whole { IsDigits 1 18 whole.now }
    requires fraction { IsDigits 0 20 fraction.now }
    ensures same { result ≡ value_of (whole.now ++ fraction.now) }
    ensures below { result < 10 ^ 38 }
{
    let weight: u128 = 10u128.pow(fraction.len() as u32);
    digits_value(whole) * weight + digits_value(fraction)
}

/// The millionths nearest to a number that is raised and lowered by powers of ten.
fn nearest_millionths(number: u128, raise: usize, lower: usize) -> Option<u64>
    requires number { number < 10 ^ 38 }
    requires raise { raise < 100 }
    requires lower { lower < 1_000 }
    ensures { result ≡ limited (nearest (number * 10 ^ raise * 1_000_000) (10 ^ lower)) }
{
    let raise = raise + 6;
    if lower <= raise {
        raised(number, raise - lower)
    } else {
        lowered(number, lower - raise)
    }
}

fn raised(number: u128, power: usize) -> Option<u64>
    ensures { result ≡ limited (number * 10 ^ power) }
{
    if number == 0 {
        return Some(0);
    }
    if power >= 12 || number >= LIMIT {
        return None;
    }
    limited(number * 10u128.pow(power as u32))
}

/// The nearest whole number, a half going up, after so many powers of ten were taken off.
fn lowered(number: u128, power: usize) -> Option<u64>
    requires number { number < 10 ^ 38 }
    requires power { 1 ≤ power }
    ensures { result ≡ limited ((number + 10 ^ power / 2) / 10 ^ power) }
{
    if power > 38 {
        return Some(0);
    }
    let unit = 10u128.pow(power as u32);
    limited((number + unit / 2) / unit)
}

fn limited(millionths: u128) -> Option<u64>
    ensures { result ≡ limited millionths }
{
    if millionths < LIMIT {
        Some(millionths as u64)
    } else {
        None
    }
}

/// Six digits of the whole part, a point, and six digits of the rest.
fn all_digits(whole: u32, rest: u32) -> [u8; 13]
    ensures { result ≡ six_digits whole ++ (46 ∷ six_digits rest) }
{
    let [w1, w2, w3, w4, w5, w6] = six_digits(whole);
    let [r1, r2, r3, r4, r5, r6] = six_digits(rest);
    [w1, w2, w3, w4, w5, w6, b'.', r1, r2, r3, r4, r5, r6]
}

fn six_digits(number: u32) -> [u8; 6]
    ensures { result ≡ six_digits number }
{
    [
        digit(number / 100_000),
        digit(number / 10_000),
        digit(number / 1_000),
        digit(number / 100),
        digit(number / 10),
        digit(number),
    ]
}

/// Where the first digit of a whole part stands among six.
fn whole_start(whole: u32) -> usize
    requires { whole < 1_000_000 }
    ensures text { drop result (six_digits whole) ≡ decimal whole }
    ensures within { result ≤ 5 }
{
    match whole {
        0..=9 => 5,
        10..=99 => 4,
        100..=999 => 3,
        1_000..=9_999 => 2,
        10_000..=99_999 => 1,
        _ => 0,
    }
}

/// Where the text ends: after the whole part, or after the last digit of the rest that isn't zero,
/// behind the point.
fn rest_end(rest: u32) -> usize
    requires { rest < 1_000_000 }
    ensures text { take (result - 6) (46 ∷ six_digits rest)
        ≡ fraction_text (without_trailing_zeros (six_digits rest)) }
    ensures within { IsInRange 6 13 result }
{
    if rest == 0 {
        6
    } else if rest % 100_000 == 0 {
        8
    } else if rest % 10_000 == 0 {
        9
    } else if rest % 1_000 == 0 {
        10
    } else if rest % 100 == 0 {
        11
    } else if rest % 10 == 0 {
        12
    } else {
        13
    }
}
