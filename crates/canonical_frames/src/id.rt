ghost use Rattle.std.specs.Prelude.{◌≡◌, IfSome, IsTrue, length};
ghost use Rattle.canonical_frames.specs.Pieces.{IsValue};
ghost use Rattle.canonical_frames.specs.Values.{IsIdText, fits_place, is_id_digit};
ghost use Rattle.hermes_horizontal.specs.Values.{identity};

use crate::front::behind_quote;

/// How many characters an id has.
const ID_BYTES: usize = 36;

/// What is behind an id, hyphenated and in lower case, and its quote.
pub fn behind_id(bytes: &[u8]) -> Option<&[u8]>
    ensures { IfSome result (λ rest. IsValue identity bytes.now rest.now) }
{
    if bytes.len() < ID_BYTES {
        return None;
    }
    let (id, quote) = bytes.split_at(ID_BYTES);
    if !is_id(id) {
        return None;
    }
    let rest = behind_quote(quote)?;
    Some(rest)
}

/// Whether 36 characters are the text of an id.
fn is_id(id: &[u8]) -> bool
    requires { length id.now ≡ 36 }
    ensures { IsTrue result → IsIdText id.now }
{
    for (place, byte) in id.iter().enumerate() {
        if !fits_place(place, *byte) {
            return false;
        }
    }
    true
}

fn fits_place(place: usize, byte: u8) -> bool
    ensures { result ≡ fits_place place byte }
{
    match place {
        8 | 13 | 18 | 23 => byte == b'-',
        _ => is_id_digit(byte),
    }
}

fn is_id_digit(byte: u8) -> bool
    ensures { result ≡ is_id_digit byte }
{
    matches!(byte, b'0'..=b'9' | b'a'..=b'f')
}
