//! Cases of `node_panel`, a line each: a line of a panel, and what it asks for or why it is
//! refused.
#![tactic(auto)]

mod told;

use crate::told::told_of;
use case_text::spell;
use node_panel::read_panel_line;
use std::alloc::{AllocError, Global};
use std::io;

fn main(rt: HostRuntime) -> io::Result<()> {
    let out = rt.stdout();
    for line in rt.lines(rt.alloc()) {
        let line = line?;
        let said = answer(rt.alloc(), line.as_str())?;
        println!(out; "{line} = {said}")?;
    }
    Ok(())
}

fn answer(alloc: Global, line: &str) -> Result<String, AllocError> {
    let mut bytes = Vec::new(alloc);
    spell(line, &mut bytes)?;
    let read = read_panel_line(alloc, bytes.as_slice());
    told_of(alloc, &read)
}
