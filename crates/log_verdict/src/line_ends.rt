ghost use Rattle.std.specs.Prelude.{◌≡◌, IfNone, IfSome};
ghost use Rattle.std.specs.Str.Lines.{strip_carriage_return};
ghost use Rattle.log_verdict.specs.LineEnds.{HasNoEnd, IsFirstEnd, CutsLine};

use memchr::memchr;

/// A line without its end, and what follows the end.
pub fn cut_line(bytes: &[u8]) -> Option<(&[u8], &[u8])>
    ensures cut { IfSome result (λ parts. CutsLine bytes.now parts.0.now parts.1.now) }
    ensures none { IfNone result (HasNoEnd bytes.now) }
{
    match end_of(bytes) {
        Some(place) => Some((&bytes[..place], &bytes[place + 1..])),
        None => None,
    }
}

/// Where the first line end stands.
fn end_of(bytes: &[u8]) -> Option<usize>
    ensures found { IfSome result (IsFirstEnd bytes.now) }
    ensures none { IfNone result (HasNoEnd bytes.now) }
{
    memchr(b'\n', bytes)
}

/// A line without the carriage return before its end.
pub fn without_return(line: &[u8]) -> &[u8]
    ensures { result.now ≡ strip_carriage_return line.now }
{
    match line {
        [front @ .., b'\r'] => front,
        _ => line,
    }
}
