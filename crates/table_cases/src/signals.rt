//! The signals of a segment: a case names an end, or a bridge, and then what is called on a new one.

mod bridge;
mod ends;

use std::io;
use std::io::Write;

/// Appends the edges of the last call, and the levels after it.
pub fn tell(case: &str, to: &mut Vec<u8>) -> io::Result<()> {
    let (end, calls) = case.split_once(' ').unwrap_or((case, ""));
    match end {
        "giver" => ends::tell_giver(calls, to),
        "taker" => ends::tell_taker(calls, to),
        "bridge" => bridge::tell(calls, to),
        _ => write!(to, "no case"),
    }
}
