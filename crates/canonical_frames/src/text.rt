ghost use Rattle.std.specs.Prelude.{IfSome, IsTrue};
ghost use Rattle.canonical_frames.specs.Pieces.{IsValue};
ghost use Rattle.canonical_frames.specs.Values.{IsClean};
ghost use Rattle.hermes_horizontal.specs.Values.{text};

use line_base::MOST_TEXT_BYTES;

/// What is behind a text of printable ASCII without escapes, and its quote.
pub fn behind_text(bytes: &[u8]) -> Option<&[u8]>
    ensures { IfSome result (λ rest. IsValue text bytes.now rest.now) }
{
    for (i, byte) in bytes.iter().enumerate() {
        if *byte == b'"' {
            return if i <= MOST_TEXT_BYTES {
                Some(&bytes[i + 1..])
            } else {
                None
            };
        }
        if !is_clean(*byte) {
            return None;
        }
    }
    None
}

/// Whether a byte is printable ASCII that is written as itself.
fn is_clean(byte: u8) -> bool
    ensures { IsTrue result → IsClean byte }
{
    b' ' <= byte && byte <= b'~' && byte != b'&' && byte != b'<' && byte != b'>' && byte != b'"'
}
