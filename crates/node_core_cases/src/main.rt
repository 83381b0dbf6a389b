//! The cases of two machines: each line has the steps of machine 1 and machine 2, and is written
//! again with the acts of each step, or the reason against it, and with how both machines stand
//! then. A line that begins with `each.in` or `each.out` has a name and the steps of machine 1
//! alone; behind it each kind of message is given, at that side, to a machine that stands so.
#![tactic(auto)]

ghost use Rattle.std.specs.Prelude.{◌<◌, ◌^◌};

mod each;
mod ids;
mod input;
mod machine;
mod messages;
mod met;
mod told;

use crate::machine::machine;
use line_base::Memory;
use node_core::Node;
use std::alloc::Global;
use std::io;
use std::io::{ErrorKind, Write};

fn main(rt: HostRuntime) -> io::Result<()> {
    let mut out = io::writer(&rt);
    for case in rt.lines(rt.alloc()) {
        let case = case?;
        let mut said = Vec::new(rt.alloc());
        tell_line(rt.alloc(), case.as_str(), &mut said)?;
        out.write_all(said.as_slice())?;
    }
    Ok(())
}

/// Appends a case with its answer.
fn tell_line(alloc: Global, line: &str, to: &mut Vec<u8>) -> io::Result<()> {
    match line.split_once(' ') {
        Some(("each.in", steps)) => each::tell(alloc, "in", steps, to),
        Some(("each.out", steps)) => each::tell(alloc, "out", steps, to),
        _ => tell_case(alloc, line, to),
    }
}

/// Appends a case with its answer, for two new machines.
fn tell_case(alloc: Global, case: &str, to: &mut Vec<u8>) -> io::Result<()> {
    let used = used_before(case);
    match machine(alloc, 1, b"M1", used, is_bridge(case)) {
        Ok(mut first) => {
            let told = with_first(alloc, &mut first, case, to);
            drop(first);
            told
        }
        Err(Memory) => Err(io::Error::from(ErrorKind::OutOfMemory)),
    }
}

fn with_first(alloc: Global, first: &mut Node, case: &str, to: &mut Vec<u8>) -> io::Result<()> {
    match machine(alloc, 2, b"M2", 0, false) {
        Ok(mut second) => {
            let told = met::tell_after(alloc, first, &mut second, case, to);
            drop(second);
            told
        }
        Err(Memory) => Err(io::Error::from(ErrorKind::OutOfMemory)),
    }
}

/// How many ids machine 1 has made before: all but one where the case begins with `last-id`.
fn used_before(case: &str) -> u64
    ensures { result < 2 ^ 48 }
{
    match case.split_whitespace().next() {
        Some("last-id") => 281_474_976_710_654,
        _ => 0,
    }
}

/// Whether machine 1 is a bridge: where the case begins with `bridge`.
fn is_bridge(case: &str) -> bool {
    case.split_whitespace().next() == Some("bridge")
}
