//! The supervisory channel: a case names a book of work orders or a session, and then the words of what a
//! new one meets.

mod asked;
mod messages;
mod session;

use std::alloc::Global;
use std::io;

/// Appends the answer to the last of them, and how it stands then.
pub fn tell(alloc: Global, case: &str, to: &mut Vec<u8>) -> io::Result<()> {
    if case.starts_with("session") {
        session::tell(alloc, case, to)
    } else {
        asked::tell(alloc, case, to)
    }
}
