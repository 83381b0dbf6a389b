ghost use Rattle.std.specs.Prelude.{◌≡◌};
ghost use Rattle.hermes_element.specs.Plain.{is_blank, is_digit, is_letter, is_hex_digit, is_declared, is_quote};

/// Space, tab, CR and LF.
pub(crate) fn is_blank(byte: u8) -> bool
    ensures { result ≡ is_blank byte }
{
    matches!(byte, b' ' | b'\t' | b'\r' | b'\n')
}

pub(crate) fn is_digit(byte: u8) -> bool
    ensures { result ≡ is_digit byte }
{
    byte.is_ascii_digit()
}

pub(crate) fn is_letter(byte: u8) -> bool
    ensures { result ≡ is_letter byte }
{
    byte.is_ascii_alphabetic()
}

pub(crate) fn is_hex_digit(byte: u8) -> bool
    ensures { result ≡ is_hex_digit byte }
{
    is_digit(byte) || matches!(byte, b'A'..=b'F' | b'a'..=b'f')
}

/// What a declaration may hold behind its first blank.
pub(crate) fn is_declared(byte: u8) -> bool
    ensures { result ≡ is_declared byte }
{
    (is_blank(byte) || matches!(byte, b' '..=b'~')) && byte != b'?' && byte != b'<'
}

pub(crate) fn is_quote(byte: u8) -> bool
    ensures { result ≡ is_quote byte }
{
    byte == b'"' || byte == b'\''
}
