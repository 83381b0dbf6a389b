//! What a link answers, and how it stands.

use line_base::{Memory, Role};
use line_link::{Connected, Link, Sent};
use std::io;
use std::io::Write;

/// Whether a connection was taken.
pub fn connected(answer: Connected, to: &mut Vec<u8>) -> io::Result<()> {
    match answer {
        Connected::Accepted => to.write_all(b"accepted,"),
        Connected::Second => to.write_all(b"second,"),
    }
}

/// What became of a text.
pub fn sent(answer: Result<Sent, Memory>, to: &mut Vec<u8>) -> io::Result<()> {
    match answer {
        Ok(Sent::Vanishes) => to.write_all(b"vanishes,"),
        Ok(Sent::Flows) => to.write_all(b"flows,"),
        Ok(Sent::Cuts) => to.write_all(b"cuts,"),
        Err(Memory) => to.write_all(b"out of memory,"),
    }
}

/// Bytes, a NUL as `0`.
pub fn bytes(bytes: &[u8], to: &mut Vec<u8>) -> io::Result<()> {
    to.write_all(b"<")?;
    for byte in bytes {
        if *byte == 0 {
            to.write_all(b"0")?;
        } else {
            to.write_all(&[*byte])?;
        }
    }
    to.write_all(b">,")
}

/// The numbers of the two ends, whether the link stands, and how many bytes are on their way to
/// each end.
pub fn stands(link: &Link, to: &mut Vec<u8>) -> io::Result<()> {
    number(link.number(Role::Upstream), to)?;
    number(link.number(Role::Downstream), to)?;
    if link.stands() {
        to.write_all(b" stands")?;
    }
    let up = link.coming(Role::Upstream);
    let down = link.coming(Role::Downstream);
    write!(to, " {up} {down}")
}

fn number(number: Option<u64>, to: &mut Vec<u8>) -> io::Result<()> {
    match number {
        Some(number) => write!(to, " {number}"),
        None => to.write_all(b" -"),
    }
}
