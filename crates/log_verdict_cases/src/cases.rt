//! A case: a name, the log that there is to read, and what is then written.

use crate::calls::{tell_call, tell_call_in_pieces};
use case_text::{spell, times_of};
use line_base::Memory;
use std::alloc::Global;

/// How many bytes a case has at most that is tried in small pieces too.
const SMALL: usize = 1000;

/// Appends a case's name, what is written, and how the check ends.
///
/// The first line of a case is its name, maybe with `, the first pull fails` or `, the first push
/// fails` behind it. The others spell the log, each with a line end, unless it ends in `\`; `*N `
/// before one stands for N times. A small case must answer the same from pieces of 1 to 64 bytes.
pub fn tell_case(alloc: Global, case: &str, to: &mut Vec<u8>) -> Result<(), Memory> {
    let (head, body) = case.split_once('\n').unwrap_or((case, ""));
    let (_name, fault) = head.split_once(", ").unwrap_or((head, ""));
    let log = log_of(alloc, body)?;
    append(&[b"=== ", head.as_bytes(), b"\n"], to)?;
    match fault {
        "the first pull fails" => tell_call(alloc, log.as_slice(), &[1], &[], to),
        "the second pull fails" => tell_call(alloc, log.as_slice(), &[2], &[], to),
        "the first push fails" => tell_call(alloc, log.as_slice(), &[], &[1], to),
        _ => tell_steady(alloc, log.as_slice(), to),
    }
}

/// Appends a case in which no call fails.
fn tell_steady(alloc: Global, log: &[u8], to: &mut Vec<u8>) -> Result<(), Memory> {
    let mut told = Vec::new(alloc);
    tell_call(alloc, log, &[], &[], &mut told)?;
    append(&[told.as_slice()], to)?;
    if log.len() <= SMALL {
        tell_pieces(alloc, log, told.as_slice(), to)?;
    }
    Ok(())
}

/// Appends what is written where it is another thing from small pieces than from the whole.
fn tell_pieces(alloc: Global, log: &[u8], whole: &[u8], to: &mut Vec<u8>) -> Result<(), Memory> {
    for size in 1..65 {
        let mut told = Vec::new(alloc);
        tell_call_in_pieces(alloc, log, size, &mut told)?;
        if told.as_slice() != whole {
            append(&[b"in small pieces: ", told.as_slice()], to)?;
        }
    }
    Ok(())
}

/// The log of a case.
fn log_of(alloc: Global, body: &str) -> Result<Vec<u8>, Memory> {
    let mut log = Vec::new(alloc);
    for line in body.lines() {
        let (times, line) = times_of(line);
        let mut bytes = Vec::new(alloc);
        spell_line(line, &mut bytes)?;
        for _ in 0..times {
            log.extend_from_slice(bytes.as_slice())?;
        }
    }
    Ok(log)
}

fn spell_line(line: &str, log: &mut Vec<u8>) -> Result<(), Memory> {
    match line.strip_suffix('\\') {
        Some(front) => spell(front, log)?,
        None => {
            spell(line, log)?;
            log.push(b'\n')?;
        }
    }
    Ok(())
}

fn append(parts: &[&[u8]], to: &mut Vec<u8>) -> Result<(), Memory> {
    for part in parts {
        to.extend_from_slice(part)?;
    }
    Ok(())
}
