ghost use Rattle.std.specs.Prelude.{◌≡◌, IfNone, IfSome, option_map};
ghost use Rattle.std.specs.Str.Lines.{strip_carriage_return};
ghost use Rattle.line_check.specs.Words.{cut_at_space};
ghost use Rattle.log_verdict.specs.LineEnds.{CutsLine, HasNoEnd, IsFirstEnd};

use memchr::memchr;

/// What comes before the first space, and what follows it.
pub fn cut_at_space(bytes: &[u8]) -> Option<(&[u8], &[u8])>
    ensures { option_map (λ parts. (parts.0.now, parts.1.now)) result ≡ cut_at_space bytes.now }
{
    for (at, byte) in bytes.iter().enumerate() {
        if *byte == b' ' {
            return Some((&bytes[..at], &bytes[at + 1..]));
        }
    }
    None
}

/// A line without its end, and what follows the end.
pub fn cut_line(bytes: &[u8]) -> Option<(&[u8], &[u8])>
    ensures cut { IfSome result (λ parts. CutsLine bytes.now parts.0.now parts.1.now) }
    ensures none { IfNone result (HasNoEnd bytes.now) }
{
    match end_of(bytes) {
        Some(place) => Some((&bytes[..place], &bytes[place + 1..])),
        None => None,
    }
}

/// Where the first line end is.
fn end_of(bytes: &[u8]) -> Option<usize>
    ensures found { IfSome result (IsFirstEnd bytes.now) }
    ensures none { IfNone result (HasNoEnd bytes.now) }
{
    memchr(b'\n', bytes)
}

/// A line without the carriage return before its end.
pub fn without_return(line: &[u8]) -> &[u8]
    ensures { result.now ≡ strip_carriage_return line.now }
{
    match line {
        [front @ .., b'\r'] => front,
        _ => line,
    }
}
