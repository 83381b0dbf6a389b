ghost use Rattle.std.specs.Prelude.{◌≡◌, ◌≤◌, length, true};
ghost use Rattle.line_base.specs.Name.{is_name_byte};
ghost use Rattle.hermes_element.specs.Plain.{is_blank, is_digit, is_letter, is_hex_digit, is_quote};
ghost use Rattle.hermes_element.specs.Machine.{is_plain};
ghost use Rattle.hermes_element.specs.Steps.{IsSpan};

use crate::bytes::{is_blank, is_digit, is_hex_digit, is_letter};
use crate::lanes::{LANES, name_run, plain_run};
use line_base::is_name_byte;

/// The end of the blanks from an index on.
pub(crate) fn blanks_end(bytes: &[u8], at: usize) -> usize
    requires { at ≤ length bytes.now }
    ensures { IsSpan is_blank bytes.now at result }
{
    let mut end = at;
    while end < bytes.len() && is_blank(bytes[end]) {
        end += 1;
    }
    end
}

/// The end of the bytes from an index on that a name may go on with.
pub(crate) fn name_end(bytes: &[u8], at: usize) -> usize
    requires { at ≤ length bytes.now }
    ensures { IsSpan is_name_byte bytes.now at result }
{
    let mut end = at;
    'by_block: while bytes.len() - end >= LANES {
        let run = name_run(bytes, end);
        if run < LANES {
            return end + run;
        }
        end += LANES;
    }
    while end < bytes.len() && is_name_byte(bytes[end]) {
        end += 1;
    }
    end
}

/// The end of the letters from an index on.
pub(crate) fn letters_end(bytes: &[u8], at: usize) -> usize
    requires { at ≤ length bytes.now }
    ensures { IsSpan is_letter bytes.now at result }
{
    let mut end = at;
    while end < bytes.len() && is_letter(bytes[end]) {
        end += 1;
    }
    end
}

/// The end of the digits from an index on.
pub(crate) fn digits_end(bytes: &[u8], at: usize) -> usize
    requires { at ≤ length bytes.now }
    ensures { IsSpan is_digit bytes.now at result }
{
    let mut end = at;
    while end < bytes.len() && is_digit(bytes[end]) {
        end += 1;
    }
    end
}

/// The end of the hexadecimal digits from an index on.
pub(crate) fn hex_digits_end(bytes: &[u8], at: usize) -> usize
    requires { at ≤ length bytes.now }
    ensures { IsSpan is_hex_digit bytes.now at result }
{
    let mut end = at;
    while end < bytes.len() && is_hex_digit(bytes[end]) {
        end += 1;
    }
    end
}

/// Whether a byte stands for itself in a value of this quote.
pub(crate) fn is_plain(quote: u8, byte: u8) -> bool
    ensures { result ≡ is_plain quote byte }
{
    matches!(byte, b' '..=0x7F) && byte != quote && byte != b'&' && byte != b'<'
}

/// The end of the bytes from an index on that stand for themselves in a value of this quote.
pub(crate) fn plain_end(bytes: &[u8], at: usize, quote: u8) -> usize
    requires here { at ≤ length bytes.now }
    requires quote { is_quote quote ≡ true }
    ensures { IsSpan (is_plain quote) bytes.now at result }
{
    let mut end = at;
    'by_block: while bytes.len() - end >= LANES {
        let run = plain_run(bytes, end, quote);
        if run < LANES {
            return end + run;
        }
        end += LANES;
    }
    while end < bytes.len() && is_plain(quote, bytes[end]) {
        end += 1;
    }
    end
}
