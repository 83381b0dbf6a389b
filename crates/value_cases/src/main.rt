//! The cases of values, ids, sub boards and kept lists, a line each: a word for what is done, a space, and what
//! it is done with. Writes each line again with its answer.
#![tactic(auto)]

mod ids;
mod lists;
mod spelled;
mod subs;
mod values;

use spelled::Spelled;
use std::alloc::{AllocError, Global};
use std::io;

fn main(rt: HostRuntime) -> io::Result<()> {
    let out = rt.stdout();
    for line in rt.lines(rt.alloc()) {
        let line = line?;
        let said = answer(rt.alloc(), line.as_str())?;
        println!(out; "{line} = {said}")?;
    }
    Ok(())
}

fn answer(alloc: Global, line: &str) -> Result<String, AllocError> {
    match line.split_once(' ') {
        Some(("kept", words)) => lists::answer(alloc, words),
        Some(("subs", words)) => subs::answer(alloc, words),
        Some((what @ ("id" | "written" | "made"), words)) => ids::answer(alloc, what, words),
        Some((what, spelled)) => answer_to(alloc, what, spelled),
        None => String::from_str(alloc, "no case"),
    }
}

/// The bytes stand on the line as they are, as hexadecimal digits behind `-hex`, or as a number of
/// `x` behind `-long`.
fn answer_to(alloc: Global, what: &str, spelled: &str) -> Result<String, AllocError> {
    match Spelled::of(what) {
        Spelled::AsIs(what) => values::answer(alloc, what, spelled.as_bytes()),
        Spelled::Hex(what) => match spelled::of_hex(alloc, spelled)? {
            Some(bytes) => values::answer(alloc, what, bytes.as_slice()),
            None => String::from_str(alloc, "no digits"),
        },
        Spelled::Long(what) => {
            let bytes = spelled::of_length(alloc, spelled)?;
            values::answer(alloc, what, bytes.as_slice())
        }
    }
}
