ghost use Rattle.std.specs.Prelude.{◌≡◌, ◌^◌, ◌<◌, ◌≤◌, IsTrue, length, option_map};
ghost use Rattle.line_base.specs.Number.{are_digits, is_digits, value_of, number_of, front_digits, behind_digits, fraction_of, digit};

/// Reads bytes as a plain number, which is 1 to 9 decimal digits.
pub fn read_number(bytes: &[u8]) -> Option<u32>
    ensures { result ≡ number_of bytes.now }
{
    if is_digits(bytes, 1, 9) {
        Some(digits_value(bytes) as u32)
    } else {
        None
    }
}

/// Whether the bytes are from `low` to `high` decimal digits.
pub fn is_digits(bytes: &[u8], low: usize, high: usize) -> bool
    ensures { result ≡ is_digits low high bytes.now }
{
    are_digits(bytes) && low <= bytes.len() && bytes.len() <= high
}

fn are_digits(bytes: &[u8]) -> bool
    ensures { result ≡ are_digits bytes.now }
{
    bytes.iter().all(|byte| byte.is_ascii_digit())
}

/// The value of at most 20 decimal digits.
pub fn digits_value(digits: &[u8]) -> u128
    requires digits { IsTrue (are_digits digits.now) }
    requires few { length digits.now ≤ 20 }
    ensures same { result ≡ value_of digits.now }
    ensures below { result < 10 ^ length digits.now }
{
    let mut value: u128 = 0;
    for digit in digits {
        value = value * 10 + (*digit - b'0') as u128;
    }
    value
}

/// The digits at the front, and what follows them.
pub fn split_digits(bytes: &[u8]) -> (&[u8], &[u8])
    ensures front { result.0.now ≡ front_digits bytes.now }
    ensures behind { result.1.now ≡ behind_digits bytes.now }
{
    let mut count = 0;
    while count < bytes.len() && bytes[count].is_ascii_digit() {
        count += 1;
    }
    bytes.split_at(count)
}

/// Reads the fraction at the front, a point and 1 to `most` digits: its digits, and what follows.
/// Without a point there are no digits.
pub fn read_fraction(bytes: &[u8], most: usize) -> Option<(&[u8], &[u8])>
    ensures { option_map (λ parts. (parts.0.now, parts.1.now)) result
        ≡ fraction_of most bytes.now }
{
    match bytes {
        [b'.', rest @ ..] => {
            let (digits, behind) = split_digits(rest);
            if is_digits(digits, 1, most) {
                Some((digits, behind))
            } else {
                None
            }
        }
        _ => Some((&bytes[..0], bytes)),
    }
}

/// The last digit of a number.
pub fn digit(number: u32) -> u8
    ensures { result ≡ digit number }
{
    b'0' + (number % 10) as u8
}
