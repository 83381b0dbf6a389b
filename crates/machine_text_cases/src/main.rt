//! Cases of `machine_text`, a line each: lines of a panel, parted by `;`, that are given to a new
//! machine. Written again, with the lines of the log of each, or why there is none.
#![tactic(auto)]

ghost use Rattle.std.specs.Prelude.{◌≤◌, ◌<◌, ◌^◌};

use line_base::{Memory, Moment, Text};
use line_report::{Reason, write_reason};
use machine_log::written;
use machine_port::Port;
use machine_text::{LineNotDone, NotAsked, do_line, write_log};
use node_core::{No, NodeProfile};
use std::alloc::Global;
use std::io;
use std::io::Write;

fn main(rt: HostRuntime) -> io::Result<()> {
    let mut out = io::writer(&rt);
    for case in rt.lines(rt.alloc()) {
        let case = case?;
        let mut said = Vec::new(rt.alloc());
        writeln!(said, "{case}")?;
        if let Err(Memory) = tell_case(rt.alloc(), case.as_str(), &mut said) {
            writeln!(said, "out of memory")?;
        }
        out.write_all(said.as_slice())?;
    }
    Ok(())
}

/// The lines of a case, at a new machine.
fn tell_case(alloc: Global, case: &str, to: &mut Vec<u8>) -> Result<(), Memory> {
    let mut port = new_machine(alloc)?;
    let told = tell_lines(alloc, &mut port, case, to);
    drop(port);
    told
}

fn new_machine(alloc: Global) -> Result<Port, Memory> {
    let machine = Text::plain(alloc, b"Oven")?;
    Port::new(alloc, profile(machine))
}

/// It has one place.
fn profile(machine: Text) -> NodeProfile
    ensures least { 1 ≤ result.capacity }
    ensures most { result.capacity ≤ 1024 }
    ensures used { result.used < 2 ^ 48 }
{
    NodeProfile {
        number: 7,
        machine,
        lane: 1,
        capacity: 1,
        used: 0,
        bridge: false,
    }
}

fn tell_lines(alloc: Global, port: &mut Port, case: &str, to: &mut Vec<u8>) -> Result<(), Memory> {
    for line in case.as_bytes().split(|byte| *byte == b';') {
        tell_line(alloc, port, line, to)?;
    }
    Ok(())
}

fn tell_line(alloc: Global, port: &mut Port, line: &[u8], to: &mut Vec<u8>) -> Result<(), Memory> {
    match do_line(alloc, port, line, Moment::of_millis(0)) {
        Ok(()) => write_log(port, to),
        Err(why) => tell_why(why, to),
    }
}

fn tell_why(why: LineNotDone, to: &mut Vec<u8>) -> Result<(), Memory> {
    match why {
        LineNotDone::NotAsked(NotAsked::Refused(why)) => written(writeln!(to, "refused: {why}")),
        LineNotDone::NotAsked(NotAsked::Blank) => written(writeln!(to, "nothing")),
        LineNotDone::NotAsked(NotAsked::Outside) => written(writeln!(to, "outside")),
        LineNotDone::No(why) => tell_no(why, to),
        LineNotDone::Memory => Err(Memory),
    }
}

fn tell_no(why: No, to: &mut Vec<u8>) -> Result<(), Memory> {
    written(write!(to, "no: "))?;
    write_reason(&Reason::Node(why), to)?;
    written(writeln!(to))
}
