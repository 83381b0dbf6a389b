ghost use Rattle.std.specs.Prelude.{◌≡◌, ◌++◌, drop, length, min, take};

/// Copies the front of a text, from byte `from` on, as far as there is room, and answers how many
/// bytes that are.
pub fn copy_front(text: &[u8], from: usize, to: &mut [u8]) -> usize
    ensures count { result ≡ min (length (drop from text.now)) (length to.old) }
    ensures bytes { to.new ≡ take result (drop from text.now) ++ drop result to.old }
{
    match text.get(from..) {
        Some(rest) => copy(rest, to),
        None => 0,
    }
}

fn copy(text: &[u8], to: &mut [u8]) -> usize
    ensures count { result ≡ min (length text.now) (length to.old) }
    ensures bytes { to.new ≡ take result text.now ++ drop result to.old }
{
    let count = text.len().min(to.len());
    to[..count].copy_from_slice(&text[..count]);
    count
}
