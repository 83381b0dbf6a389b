//! An outlet: a case has the words of what a new outlet meets.

mod met;
mod told;

use handover_out::Outlet;
use std::alloc::Global;
use std::io;
use std::io::Write;

/// Appends what it does at the last of them, and how it stands then.
pub fn tell(alloc: Global, case: &str, to: &mut Vec<u8>) -> io::Result<()> {
    let mut outlet = Outlet::new();
    let told = tell_after(alloc, &mut outlet, case, to);
    // by name, since at the end of a scope all its parts are let go in the goals of this function
    drop(outlet);
    told
}

fn tell_after(alloc: Global, outlet: &mut Outlet, case: &str, to: &mut Vec<u8>) -> io::Result<()> {
    let begin = to.len();
    for word in case.split_whitespace() {
        to.truncate(begin);
        met::meet(alloc, outlet, word, to)?;
    }
    told::stands(outlet, to)
}
