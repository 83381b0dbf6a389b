ghost use Rattle.std.specs.Prelude.{◌≡◌, option_map};
ghost use Rattle.line_check.specs.Words.{cut_at_space};

/// What stands before the first space, and what follows it.
pub fn cut_at_space(bytes: &[u8]) -> Option<(&[u8], &[u8])>
    ensures { option_map (λ parts. (parts.0.now, parts.1.now)) result ≡ cut_at_space bytes.now }
{
    for (at, byte) in bytes.iter().enumerate() {
        if *byte == b' ' {
            return Some((&bytes[..at], &bytes[at + 1..]));
        }
    }
    None
}
