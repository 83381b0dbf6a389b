//! An intake: a case has the words of what a new intake meets.

mod met;
mod told;

use handover_in::Intake;
use std::alloc::Global;
use std::io;
use std::io::Write;

/// Appends what it does at the last of them, and how it stands then.
pub fn tell(alloc: Global, case: &str, to: &mut Vec<u8>) -> io::Result<()> {
    let mut intake = Intake::new();
    let told = tell_after(alloc, &mut intake, case, to);
    // by name, since at the end of a scope all its parts are let go in the goals of this function
    drop(intake);
    told
}

fn tell_after(alloc: Global, intake: &mut Intake, case: &str, to: &mut Vec<u8>) -> io::Result<()> {
    let begin = to.len();
    for word in case.split_whitespace() {
        to.truncate(begin);
        met::meet(alloc, intake, word, to)?;
    }
    told::stands(intake, to)
}
