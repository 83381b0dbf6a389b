ghost use Rattle.std.specs.Prelude.{◌≡◌, ◌+◌, ◌-◌, ◌*◌, ◌^◌, ◌≤◌, ◌<◌, IfOk, drop};
ghost use Rattle.std.specs.Int.{cast_signed, w64};
ghost use Rattle.line_base.specs.Moment.{IsMomentMillis};
ghost use Rattle.book_entry.specs.Numbers.{byte_in, front_value, judged, meets, meets_moments, millis_in, number_in};
ghost use Rattle.book_entry.specs.Reading.{asks, below, exactly, id_in, long_in, moment_in, short_in};

use crate::fault::Fail;
use crate::proper::slice_is_proper;
use board_record::BoardId;
use line_base::Moment;

/// The two's complement of a moment is at most this, the last millisecond of year 9999,
const LAST_MILLIS: u128 = 253_402_300_799_999;

/// or at least this, the first of year 1.
const FIRST_MILLIS: u128 = 18_446_681_938_112_751_616;

/// What follows the first bytes.
pub fn behind(bytes: &[u8], count: usize) -> &[u8]
    ensures { result.now ≡ drop count bytes.now }
{
    let start = count.min(bytes.len());
    &bytes[start..]
}

/// What stands before a byte, and the byte, as one number.
fn joined(high: u128, width: usize, byte: u8) -> u128
    requires some { 0 < width }
    requires room { (high + 1) * 256 ^ width ≤ 2 ^ 128 }
    ensures value { result ≡ high * 256 + byte }
    ensures room { (result + 1) * 256 ^ (width - 1) ≤ 2 ^ 128 }
{
    high * 256 + u128::from(byte)
}

/// The number of `width` bytes that the bytes begin, the highest first; where they end first, each
/// byte that is missing is the filler. What stands before them is `high`.
fn front_value(filler: u8, width: usize, high: u128, bytes: &[u8]) -> u128
    requires { (high + 1) * 256 ^ width ≤ 2 ^ 128 }
    ensures { result ≡ front_value filler width high bytes.now }
{
    if width == 0 {
        return high;
    }
    if bytes.is_empty() {
        return front_value(filler, width - 1, joined(high, width, filler), bytes);
    }
    front_value(
        filler,
        width - 1,
        joined(high, width, bytes[0]),
        behind(bytes, 1),
    )
}

fn meets(lowest: u128, highest: u128, least: u128, greatest: u128) -> bool
    ensures { result ≡ meets lowest highest least greatest }
{
    lowest <= greatest && least <= highest
}

fn meets_moments(least: u128, greatest: u128) -> bool
    ensures { result ≡ meets_moments least greatest }
{
    least <= LAST_MILLIS || FIRST_MILLIS <= greatest
}

fn judged(passes: bool, ends: bool, number: u128) -> Result<u128, Fail>
    ensures { result ≡ judged passes ends number }
{
    if !passes {
        return Err(Fail::Bad);
    }
    if ends {
        return Err(Fail::Short);
    }
    Ok(number)
}

/// The number of `width` bytes in front, from the lowest to the highest that is allowed.
pub fn number_in(bytes: &[u8], width: usize, lowest: u128, highest: u128) -> Result<u128, Fail>
    requires { width ≤ 16 }
    ensures found { result ≡ number_in width lowest highest bytes.now }
    ensures least { IfOk result (λ number. lowest ≤ number) }
    ensures most { IfOk result (λ number. number ≤ highest) }
{
    let least = front_value(0, width, 0, bytes);
    let greatest = front_value(255, width, 0, bytes);
    let passes = meets(lowest, highest, least, greatest);
    judged(passes, bytes.len() < width, least)
}

/// A number of 4 bytes.
pub fn short_in(bytes: &[u8]) -> Result<u32, Fail>
    ensures { result ≡ short_in bytes.now }
{
    let number = number_in(bytes, 4, 0, 0xFFFF_FFFF)?;
    Ok(number as u32)
}

/// A number of 8 bytes.
pub fn long_in(bytes: &[u8]) -> Result<u64, Fail>
    ensures { result ≡ long_in bytes.now }
{
    let number = number_in(bytes, 8, 0, 0xFFFF_FFFF_FFFF_FFFF)?;
    Ok(number as u64)
}

/// An id.
pub fn id_in(bytes: &[u8]) -> Result<BoardId, Fail>
    ensures { result ≡ id_in bytes.now }
{
    let number = number_in(bytes, 16, 0, u128::MAX)?;
    Ok(BoardId::of(number))
}

/// The milliseconds of a moment, in two's complement.
fn millis_in(bytes: &[u8]) -> Result<u128, Fail>
    ensures found { result ≡ millis_in bytes.now }
    ensures within { IfOk result (λ bits. bits < 2 ^ 64) }
    ensures moment { IfOk result (λ bits. IsMomentMillis (cast_signed w64 bits)) }
{
    slice_is_proper(bytes);
    let least = front_value(0, 8, 0, bytes);
    let greatest = front_value(255, 8, 0, bytes);
    judged(meets_moments(least, greatest), bytes.len() < 8, least)
}

/// A moment.
pub fn moment_in(bytes: &[u8]) -> Result<Moment, Fail>
    ensures { result ≡ moment_in bytes.now }
{
    let bits = millis_in(bytes)?;
    Ok(Moment::of_millis((bits as u64).cast_signed()))
}

/// One byte below a number.
pub fn byte_below(bytes: &[u8], count: u8) -> Result<u8, Fail>
    ensures { result ≡ byte_in (below count) bytes.now }
{
    match bytes {
        [] => Err(Fail::Short),
        [byte, ..] if *byte < count => Ok(*byte),
        _ => Err(Fail::Bad),
    }
}

/// This one byte.
pub fn byte_exactly(bytes: &[u8], wanted: u8) -> Result<u8, Fail>
    ensures { result ≡ byte_in (exactly wanted) bytes.now }
{
    match bytes {
        [] => Err(Fail::Short),
        [byte, ..] if *byte == wanted => Ok(*byte),
        _ => Err(Fail::Bad),
    }
}

/// The tag of a question that can be so many bytes.
pub fn asked_tag(bytes: &[u8], count: usize) -> Result<u8, Fail>
    ensures { result ≡ byte_in (asks count) bytes.now }
{
    match bytes {
        [] => Err(Fail::Short),
        [byte, ..] if asks(count, *byte) => Ok(*byte),
        _ => Err(Fail::Bad),
    }
}

fn asks(count: usize, tag: u8) -> bool
    ensures { result ≡ asks count tag }
{
    (tag < 2 && 3 <= count && count <= 1027) || (tag == 2 && 7 <= count && count <= 1031)
}
