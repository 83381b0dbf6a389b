ghost use Rattle.std.specs.Prelude.{◌≡◌, ◌==◌, ◌<◌, IfSome, length, option_map, position};
ghost use Rattle.line_outside.specs.Address.{cut_at, part_of, port_of, part_before, host_of, address_of};

use crate::Address;
use line_base::read_number;

/// Reads `a.b.c.d:port`, each part a number of 0 to 255 and the port one of 1 to 65,535.
pub fn address_of(bytes: &[u8]) -> Option<Address>
    ensures { result ≡ address_of bytes.now }
{
    let (host, port) = cut_at(bytes, b':')?;
    let host = host_of(host)?;
    let port = port_of(port)?;
    Some(Address { host, port })
}

fn host_of(bytes: &[u8]) -> Option<[u8; 4]>
    ensures { result ≡ host_of bytes.now }
{
    let (a, bytes) = part_before(bytes)?;
    let (b, bytes) = part_before(bytes)?;
    let (c, bytes) = part_before(bytes)?;
    let d = part_of(bytes)?;
    Some([a, b, c, d])
}

/// A part with a point behind it, and what follows.
fn part_before(bytes: &[u8]) -> Option<(u8, &[u8])>
    ensures { option_map (λ parts. (parts.0, parts.1.now)) result ≡ part_before bytes.now }
{
    let (part, behind) = cut_at(bytes, b'.')?;
    let part = part_of(part)?;
    Some((part, behind))
}

fn part_of(word: &[u8]) -> Option<u8>
    ensures { result ≡ part_of word.now }
{
    let number = read_number(word)?;
    if number > 255 {
        return None;
    }
    Some(number as u8)
}

/// Reads a port: 1 to 9 decimal digits, of a value from 1 to 65,535.
pub fn port_of(word: &[u8]) -> Option<u16>
    ensures { result ≡ port_of word.now }
{
    let number = read_number(word)?;
    if number > 65_535 || number == 0 {
        return None;
    }
    Some(number as u16)
}

/// What stands round the first such byte.
fn cut_at(bytes: &[u8], separator: u8) -> Option<(&[u8], &[u8])>
    ensures { option_map (λ parts. (parts.0.now, parts.1.now)) result
        ≡ cut_at separator bytes.now }
{
    let place = place_of(bytes, separator)?;
    Some((&bytes[..place], &bytes[place + 1..]))
}

/// Where the first such byte stands.
fn place_of(bytes: &[u8], separator: u8) -> Option<usize>
    ensures place { result ≡ position (λ b. b == separator) bytes.now }
    ensures inside { IfSome result (λ place. place < length bytes.now) }
{
    bytes.iter().position(|byte| *byte == separator)
}
