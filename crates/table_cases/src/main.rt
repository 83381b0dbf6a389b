//! The cases of tables: the first word of a line says whose table it is, and the rest what a new
//! one of these meets in turn. Each line is written again with what it does at the last of them,
//! and how it stands then.
#![tactic(auto)]

mod ends;
mod floor;
mod intake;
mod link;
mod outlet;
mod query;
mod session;
mod signals;
mod supervisory;
mod words;

use std::alloc::Global;
use std::io;
use std::io::Write;

fn main(rt: HostRuntime) -> io::Result<()> {
    let mut out = io::writer(&rt);
    for case in rt.lines(rt.alloc()) {
        let case = case?;
        let mut said = Vec::new(rt.alloc());
        tell_case(rt.alloc(), case.as_str(), &mut said)?;
        out.write_all(said.as_slice())?;
    }
    Ok(())
}

/// Appends a case with its answer.
fn tell_case(alloc: Global, case: &str, to: &mut Vec<u8>) -> io::Result<()> {
    write!(to, "{case} = ")?;
    let (table, words) = case.split_once(' ').unwrap_or((case, ""));
    tell_answer(alloc, table, words, to)?;
    writeln!(to)
}

fn tell_answer(alloc: Global, table: &str, words: &str, to: &mut Vec<u8>) -> io::Result<()> {
    match table {
        "session" => session::tell(alloc, words, to),
        "outlet" => outlet::tell(alloc, words, to),
        "intake" => intake::tell(alloc, words, to),
        "link" => link::tell(alloc, words, to),
        "floor" => floor::tell(alloc, words, to),
        "ends" => ends::tell(words, to),
        "signals" => signals::tell(words, to),
        "query" => query::tell(alloc, words, to),
        "supervisory" => supervisory::tell(alloc, words, to),
        _ => write!(to, "no case"),
    }
}
