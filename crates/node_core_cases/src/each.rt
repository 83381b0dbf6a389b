//! Each kind of message, given to a machine that stands as a case says.

use crate::machine::machine;
use crate::{messages, met, told};
use line_base::{Memory, Side};
use node_core::Node;
use std::alloc::Global;
use std::io;
use std::io::{ErrorKind, Write};

/// The messages: the fourteen kinds, of those about a board with each state and for another board
/// too.
const MESSAGES: &str =
    "ping pong alive describes notifies offer:9.2 revoke ready unready start:1.1 start:9.2 stop1:1.1 stop3:1.1 stop3:9.2 finish1:1.1 finish2:1.1 finish3:1.1 finish3:9.2 forecast query info hello";

/// Appends a case: how the machine stands behind these steps, and for each message, given to a
/// machine that stands so, its acts with the bytes that it sends, and how it stands then.
pub fn tell(alloc: Global, side: &str, steps: &str, to: &mut Vec<u8>) -> io::Result<()> {
    write!(to, "each.{side} {steps} =")?;
    with_machine(alloc, side, steps, "", to)?;
    for message in MESSAGES.split(' ') {
        write!(to, "  {side}:{message} =")?;
        with_machine(alloc, side, steps, message, to)?;
    }
    Ok(())
}

fn with_machine(
    alloc: Global,
    side: &str,
    steps: &str,
    message: &str,
    to: &mut Vec<u8>,
) -> io::Result<()> {
    match machine(alloc, 1, b"M1", 0, false) {
        Ok(mut node) => {
            let told = give(alloc, &mut node, side, steps, message, to);
            drop(node);
            told
        }
        Err(Memory) => Err(io::Error::from(ErrorKind::OutOfMemory)),
    }
}

/// Brings a machine to stand as these steps say, and gives it a message, if there is one.
fn give(
    alloc: Global,
    node: &mut Node,
    side: &str,
    steps: &str,
    message: &str,
    to: &mut Vec<u8>,
) -> io::Result<()> {
    met::bring(alloc, node, steps)?;
    if !message.is_empty() {
        let mut bytes = Vec::new(alloc);
        messages::spell_all(message, &mut bytes)?;
        met::hear(node, side_of(side), bytes.as_slice(), to)?;
    }
    told::stands_open(node, side_of(side), to)?;
    writeln!(to)
}

fn side_of(word: &str) -> Side {
    match word {
        "in" => Side::Entry,
        _ => Side::Exit,
    }
}
