ghost use Rattle.std.specs.Prelude.{◌≡◌, ◌≤◌, ◌++◌, drop, length};
ghost use Rattle.hermes_stream.specs.Frames.{first_end, is_blank, without_blanks};
ghost use Rattle.hermes_stream.specs.Scan.{IsNextClose, IsSearched, ends_at};

use memchr::memchr;

const END_TAG: &[u8] = b"</Hermes>";

/// How many blanks stand before the first other byte of two parts, one behind the other.
pub fn blanks_before(first: &[u8], second: &[u8]) -> usize
    ensures within { result ≤ length (first.now ++ second.now) }
    ensures dropped { drop result (first.now ++ second.now)
        ≡ without_blanks (first.now ++ second.now) }
{
    let blanks = blanks_of(first);
    if blanks < first.len() {
        return blanks;
    }
    blanks + blanks_of(second)
}

/// How many blanks stand before the first other byte.
fn blanks_of(bytes: &[u8]) -> usize
    ensures within { result ≤ length bytes.now }
    ensures dropped { drop result bytes.now ≡ without_blanks bytes.now }
{
    for (place, byte) in bytes.iter().enumerate() {
        if !is_blank(*byte) {
            return place;
        }
    }
    bytes.len()
}

fn is_blank(byte: u8) -> bool
    ensures { result ≡ is_blank byte }
{
    matches!(byte, b' ' | b'\t' | b'\n' | b'\r')
}

/// How many bytes of two parts, one behind the other, there are through the first end of a
/// message, where none ends within the first `searched`. Every end closes with a `>`, so it looks
/// at the bytes before each of these alone.
pub fn find_end(first: &[u8], second: &[u8], searched: usize) -> Option<usize>
    requires within { searched ≤ length (first.now ++ second.now) }
    requires searched { IsSearched (first.now ++ second.now) searched }
    ensures { result ≡ first_end (first.now ++ second.now) }
{
    let mut at = searched;
    while let Some(close) = next_close(first, second, at) {
        at = close + 1;
        if ends_at(first, second, at) {
            return Some(at);
        }
    }
    None
}

/// The place of the first `>` from a place on.
fn next_close(first: &[u8], second: &[u8], from: usize) -> Option<usize>
    requires { from ≤ length (first.now ++ second.now) }
    ensures { IsNextClose (first.now ++ second.now) from result }
{
    if from >= first.len() {
        return close_behind(first, second, from);
    }
    match close_in(first, from) {
        Some(place) => Some(place),
        None => match close_in(second, 0) {
            Some(place) => Some(first.len() + place),
            None => None,
        },
    }
}

/// The place of the first `>` from a place in the second part on.
fn close_behind(first: &[u8], second: &[u8], from: usize) -> Option<usize>
    requires from { length first.now ≤ from }
    requires within { from ≤ length (first.now ++ second.now) }
    ensures { IsNextClose (first.now ++ second.now) from result }
{
    match close_in(second, from - first.len()) {
        Some(place) => Some(first.len() + place),
        None => None,
    }
}

/// The place of the first `>` from a place on, in one part.
#[inline(always)]
fn close_in(bytes: &[u8], from: usize) -> Option<usize>
    requires { from ≤ length bytes.now }
    ensures { IsNextClose bytes.now from result }
{
    match memchr(b'>', &bytes[from..]) {
        Some(count) => Some(from + count),
        None => None,
    }
}

/// Whether an end of a message closes with the byte before a place.
fn ends_at(first: &[u8], second: &[u8], at: usize) -> bool
    requires { at ≤ length (first.now ++ second.now) }
    ensures { result ≡ ends_at (first.now ++ second.now) at }
{
    if at <= first.len() {
        return first[..at].ends_with(END_TAG);
    }
    let behind = at - first.len();
    if behind >= END_TAG.len() {
        return second[..behind].ends_with(END_TAG);
    }
    let front = END_TAG.len() - behind;
    first.ends_with(&END_TAG[..front]) && second.starts_with(&END_TAG[front..])
}
