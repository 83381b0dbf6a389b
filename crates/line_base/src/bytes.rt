ghost use Rattle.std.specs.Prelude.{◌≡◌};
ghost use Rattle.line_base.specs.Bytes.{is_blank, is_escaped};

/// Whether a byte is a space, a tab, a carriage return or a line feed.
#[inline]
pub fn is_blank(byte: u8) -> bool
    ensures { result ≡ is_blank byte }
{
    matches!(byte, b' ' | b'\t' | b'\r' | b'\n')
}

/// Whether a written value spells a byte by an escape: `&`, `<`, `>`, `"`, a line feed, a carriage
/// return or a tab.
#[inline]
pub fn is_escaped(byte: u8) -> bool
    ensures { result ≡ is_escaped byte }
{
    matches!(byte, b'&' | b'<' | b'>' | b'"' | b'\n' | b'\r' | b'\t')
}
