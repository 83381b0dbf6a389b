//! How many bytes of one load, from the first, pass a test.
ghost use Rattle.std.specs.Prelude.{◌≡◌, ◌+◌, ◌≤◌, length, true};
ghost use Rattle.line_base.specs.Name.{is_name_byte};
ghost use Rattle.hermes_element.specs.Plain.{is_quote};
ghost use Rattle.hermes_element.specs.Machine.{is_plain};
ghost use Rattle.hermes_element.specs.Lanes.{IsRunIn, first_set};

use std::simd::prelude::*;

/// How many bytes one load takes.
pub(crate) const LANES: usize = 16;

/// The index of the lowest bit that is set, or the number of lanes.
#[inline(always)]
fn first_set(mask: u64) -> usize
    ensures { result ≡ first_set mask LANES }
{
    if mask == 0 {
        LANES
    } else {
        mask.trailing_zeros() as usize
    }
}

/// How many of the bytes from an index on may go on a name.
#[inline(always)]
pub(crate) fn name_run(bytes: &[u8], at: usize) -> usize
    requires { at + LANES ≤ length bytes.now }
    ensures { IsRunIn is_name_byte bytes.now at LANES result }
{
    let block = u8x16::from_slice(&bytes[at..]);
    let is_no_letter = ((block | u8x16::splat(0x20)) - u8x16::splat(b'a')).simd_ge(u8x16::splat(
        26,
    ));
    let is_no_sign = (block - u8x16::splat(b'-')).simd_ge(u8x16::splat(14))
        | block.simd_eq(u8x16::splat(b'/'));
    let stops = is_no_letter & is_no_sign & block.simd_ne(u8x16::splat(b'_'));
    first_set(stops.to_bitmask())
}

/// How many of the bytes from an index on stand for themselves in a value of this quote.
#[inline(always)]
pub(crate) fn plain_run(bytes: &[u8], at: usize, quote: u8) -> usize
    requires here { at + LANES ≤ length bytes.now }
    requires quote { is_quote quote ≡ true }
    ensures { IsRunIn (is_plain quote) bytes.now at LANES result }
{
    let block = u8x16::from_slice(&bytes[at..]);
    let is_other = (block - u8x16::splat(b' ')).simd_ge(u8x16::splat(0x60));
    let is_mark = block.simd_eq(u8x16::splat(b'&')) | block.simd_eq(u8x16::splat(b'<'));
    let stops = is_other | is_mark | block.simd_eq(u8x16::splat(quote));
    first_set(stops.to_bitmask())
}
