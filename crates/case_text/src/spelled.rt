ghost use Rattle.std.specs.Prelude.{◌<◌};

use std::alloc::AllocError;

/// Appends the bytes that a text spells. Each character stands for itself, `\` and two hexadecimal
/// digits for that byte, and `\(N)` and two digits for N such bytes.
pub fn spell(text: &str, to: &mut Vec<u8>) -> Result<(), AllocError> {
    for (index, piece) in text.split('\\').enumerate() {
        if index == 0 {
            to.extend_from_slice(piece.as_bytes())?;
        } else {
            spell_escaped(piece, to)?;
        }
    }
    Ok(())
}

/// Appends what stands behind a `\`.
fn spell_escaped(piece: &str, to: &mut Vec<u8>) -> Result<(), AllocError> {
    let (count, digits) = counted(piece);
    match digits.as_bytes() {
        [high, low, rest @ ..] => {
            let size = to.len().saturating_add(count);
            to.resize(size, digit(*high) * 16 + digit(*low))?;
            to.extend_from_slice(rest)
        }
        _ => Ok(()),
    }
}

/// How many bytes are meant, and what stands behind that number.
fn counted(piece: &str) -> (usize, &str) {
    let Some(counted) = piece.strip_prefix('(') else {
        return (1, piece);
    };
    match counted.split_once(')') {
        Some((count, rest)) => (count.parse().unwrap_or(0), rest),
        None => (1, piece),
    }
}

fn digit(byte: u8) -> u8
    ensures { result < 16 }
{
    match byte {
        b'0'..=b'9' => byte - b'0',
        b'A'..=b'F' => byte - b'A' + 10,
        _ => 0,
    }
}
