//! Cases of `node_settings`, a line each: what is another in a file of settings, and what the
//! reader answers to it.
#![tactic(auto)]

mod document;
mod told;

use crate::document::document_of;
use crate::told::told_of;
use node_settings::read_settings;
use std::alloc::{AllocError, Global};
use std::io;

fn main(rt: HostRuntime) -> io::Result<()> {
    let out = rt.stdout();
    for line in rt.lines(rt.alloc()) {
        let line = line?;
        let said = answer(rt.alloc(), line.as_str())?;
        println!(out; "{line} = {said}")?;
    }
    Ok(())
}

fn answer(alloc: Global, line: &str) -> Result<String, AllocError> {
    let document = document_of(alloc, line)?;
    let read = read_settings(alloc, document.as_slice());
    told_of(alloc, &read)
}
