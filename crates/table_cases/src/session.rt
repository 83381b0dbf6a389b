//! A session: a case names a part and then what an end without a connection meets in it.

mod messages;
mod met;
mod told;

use line_base::Role;
use session_core::Session;
use std::alloc::Global;
use std::io;
use std::io::Write;

/// Appends what the end does at the last of them, and how it stands then.
pub fn tell(alloc: Global, case: &str, to: &mut Vec<u8>) -> io::Result<()> {
    let mut session = Session::new(part_of(case));
    tell_after(alloc, &mut session, case, to)
}

/// The upstream part, unless the line begins with the other's name.
fn part_of(case: &str) -> Role {
    match case.split_whitespace().next() {
        Some("downstream") => Role::Downstream,
        _ => Role::Upstream,
    }
}

fn tell_after(
    alloc: Global,
    session: &mut Session,
    case: &str,
    to: &mut Vec<u8>,
) -> io::Result<()> {
    let begin = to.len();
    for word in case.split_whitespace() {
        to.truncate(begin);
        met::meet(alloc, session, word, to)?;
    }
    told::stands(session, to)
}
