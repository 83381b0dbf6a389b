//! A link: a case has the words of what a new link meets.

mod met;
mod told;

use line_link::Link;
use std::alloc::Global;
use std::io;
use std::io::Write;

/// Appends what the last of them answers, and how the link stands then.
pub fn tell(alloc: Global, case: &str, to: &mut Vec<u8>) -> io::Result<()> {
    let mut link = Link::new(alloc);
    tell_after(alloc, &mut link, case, to)
}

fn tell_after(alloc: Global, link: &mut Link, case: &str, to: &mut Vec<u8>) -> io::Result<()> {
    let begin = to.len();
    for word in case.split_whitespace() {
        to.truncate(begin);
        met::meet(alloc, link, word, to)?;
    }
    told::stands(link, to)
}
