//! Whole logs as cases: what became of their boards.
#![tactic(auto)]

mod cases;

use crate::cases::tell_case;
use std::io;
use std::io::Write;

fn main(rt: HostRuntime) -> io::Result<()> {
    let cases = io::read_to_string(rt.alloc(), rt.reader())?;
    let mut out = io::writer(&rt);
    for case in cases.as_str().split("=== ").skip(1) {
        let mut told = Vec::new(rt.alloc());
        if tell_case(rt.alloc(), case, &mut told).is_err() {
            return Err(io::Error::from(io::ErrorKind::OutOfMemory));
        }
        out.write_all(told.as_slice())?;
    }
    Ok(())
}
