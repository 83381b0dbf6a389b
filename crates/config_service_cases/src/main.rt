//! Cases of `config_service`, a line each. `read` has the bytes of a message: the answer is the
//! canonical text of what they spell, or the reason why they spell none. `plan` has such bytes,
//! too: the answer is what the message asks of a machine. `accept` has two messages, parted by
//! ` then `: the answer is which sides are reset where the settings of the second come behind those
//! of the first.
#![tactic(auto)]

mod asked;
mod told;

use crate::asked::{tell_accepted, tell_plan};
use crate::told::tell_read;
use case_text::spell;
use std::alloc::Global;
use std::io;
use std::io::Write;

fn main(rt: HostRuntime) -> io::Result<()> {
    let mut out = rt.stdout();
    for line in rt.lines(rt.alloc()) {
        let line = line?;
        let mut said = Vec::new(rt.alloc());
        said.extend_from_slice(line.as_str().as_bytes())?;
        said.extend_from_slice(b" = ")?;
        tell(rt.alloc(), line.as_str(), &mut said)?;
        said.extend_from_slice(b"\n")?;
        out.write_all(said.as_slice())?;
    }
    Ok(())
}

fn tell(alloc: Global, line: &str, to: &mut Vec<u8>) -> io::Result<()> {
    match line.split_once(' ') {
        Some(("read", text)) => {
            let mut bytes = Vec::new(alloc);
            spell(text, &mut bytes)?;
            tell_read(alloc, bytes.as_slice(), to)
        }
        Some(("plan", text)) => tell_plan(alloc, text.as_bytes(), to),
        Some(("accept", text)) => match text.split_once(" then ") {
            Some((first, second)) => tell_accepted(alloc, first.as_bytes(), second.as_bytes(), to),
            None => write!(to, "no case"),
        },
        _ => write!(to, "no case"),
    }
}
