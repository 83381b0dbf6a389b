//! The cases of what is read from bytes: the first word of a line says what reads them, and the
//! rest spells them. Each line is written again with the answer.
#![tactic(auto)]

mod cut;
mod element;
mod horizontal;
mod nested;
mod script;
mod told;
mod vertical;

use std::alloc::Global;
use std::io;
use std::io::Write;

fn main(rt: HostRuntime) -> io::Result<()> {
    let mut out = io::writer(&rt);
    for case in rt.lines(rt.alloc()) {
        let case = case?;
        let mut said = Vec::new(rt.alloc());
        tell_case(rt.alloc(), case.as_str(), &mut said)?;
        out.write_all(said.as_slice())?;
    }
    Ok(())
}

/// Appends a case with its answer.
fn tell_case(alloc: Global, case: &str, to: &mut Vec<u8>) -> io::Result<()> {
    write!(to, "{case} = ")?;
    let (reader, text) = case.split_once(' ').unwrap_or((case, ""));
    match reader {
        "cut" => cut::tell(alloc, text, to)?,
        "element" => element::tell(alloc, text, to)?,
        "horizontal" => horizontal::tell(alloc, text, to)?,
        "vertical" => vertical::tell(alloc, text, to)?,
        "script" => script::tell(alloc, text, to)?,
        _ => write!(to, "no case")?,
    }
    writeln!(to)
}
