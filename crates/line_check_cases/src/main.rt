//! Logs as cases, line by line: at which line the checker first answers an error, and what it says
//! at the end.
#![tactic(auto)]

mod given;

use crate::given::Given;
use case_text::{spell_time, times_of};
use line_check::{CheckError, Checker};
use std::alloc::{AllocError, Global};
use std::io;

fn main(rt: HostRuntime) -> io::Result<()> {
    let cases = io::read_to_string(rt.alloc(), rt.reader())?;
    for case in cases.as_str().split("=== ").skip(1) {
        let (name, log) = case.split_once('\n').unwrap_or((case, ""));
        let said = said_of(rt.alloc(), log)?;
        println!(rt; "{name}: {said}")?;
    }
    Ok(())
}

/// What the checker says of a log, and at which of its lines it first said so.
fn said_of(alloc: Global, log: &str) -> Result<String, AllocError> {
    let mut checker = Checker::new(alloc);
    match give_all(alloc, &mut checker, log) {
        Ok(given) => {
            let said = end_of(alloc, checker)?;
            format!(in alloc; "{said}, {given}")
        }
        Err(AllocError) => {
            drop(checker);
            Err(AllocError)
        }
    }
}

/// Gives all lines, also behind an error, which is then answered again.
fn give_all(alloc: Global, checker: &mut Checker, log: &str) -> Result<String, AllocError> {
    let mut given = Given::new();
    for line in log.lines() {
        let (times, line) = times_of(line);
        give_often(alloc, checker, times, line, &mut given)?;
    }
    given.told(alloc)
}

fn give_often(
    alloc: Global,
    checker: &mut Checker,
    times: u64,
    line: &str,
    given: &mut Given,
) -> Result<(), AllocError> {
    let mut bytes = Vec::new(alloc);
    for number in 1..=times {
        bytes.clear();
        spell_time(alloc, number, line, &mut bytes)?;
        given.note(checker.line(bytes.as_slice()));
    }
    Ok(())
}

fn end_of(alloc: Global, checker: Checker) -> Result<String, AllocError> {
    match checker.end() {
        Ok(counts) => {
            let lines = counts.lines;
            let boards = counts.boards;
            format!(in alloc; "yes lines={lines} boards={boards}")
        }
        Err(CheckError::No { line, why }) => format!(in alloc; "no {line} {why}"),
        Err(CheckError::Memory) => String::from_str(alloc, "out of memory"),
    }
}
