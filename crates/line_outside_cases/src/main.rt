//! Cases of `line_outside`, a line each: a source or a sink, and what is asked of it in turn.
//! Writes each line again with the answers.
#![tactic(auto)]

mod host;
mod host_side;
mod numbers;
mod parts;
mod ports;
mod sinks;
mod sources;

use std::alloc::{AllocError, Global};
use std::io;

fn main(rt: HostRuntime) -> io::Result<()> {
    let out = rt.stdout();
    for line in rt.lines(rt.alloc()) {
        let line = line?;
        let said = said_of(&rt, line.as_str())?;
        println!(out; "{line} = {said}")?;
    }
    Ok(())
}

/// The answer, where the host may be asked.
fn said_of(rt: &HostRuntime, line: &str) -> Result<String, AllocError> {
    if line == "clocks" {
        return String::from_str(rt.alloc(), host_side::clocks(rt));
    }
    if line == "sockets" {
        return String::from_str(rt.alloc(), host_side::sockets(rt));
    }
    if line == "reach" {
        return String::from_str(rt.alloc(), host_side::reach(rt));
    }
    answer(rt.alloc(), line)
}

fn answer(alloc: Global, line: &str) -> Result<String, AllocError> {
    match parts::two_of(line) {
        Some((what, asked)) => answer_of(alloc, what, asked),
        None => String::from_str(alloc, "no case"),
    }
}

fn answer_of(alloc: Global, what: &str, asked: &str) -> Result<String, AllocError> {
    if what == "source" {
        return sources::memory(alloc, asked);
    }
    if what == "steady-source" {
        return sources::steady(alloc, asked);
    }
    if what == "reader" {
        return sources::reader(alloc, asked);
    }
    if what == "ports" {
        return ports::memory(alloc, asked);
    }
    if what == "sink" {
        return sinks::memory(alloc, asked);
    }
    if what == "whole-sink" {
        return sinks::whole(alloc, asked);
    }
    if what == "steady-sink" {
        return sinks::steady(alloc, asked);
    }
    if what == "writer" {
        return sinks::writer(alloc, asked);
    }
    String::from_str(alloc, "no case")
}
