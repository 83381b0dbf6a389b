//! A script that is broken off behind each of its lines.

use crate::calls::write_call;
use crate::inputs::{input_of, spell_line};
use line_base::{Memory, Words};
use std::alloc::Global;
use std::io::Write;

/// What stands between the script and the lines that follow where it is broken off.
const THEN: &str = "...\n";

/// Appends what the last line is told where a script is broken off behind its first line, its
/// second, and so on, and other lines follow: each time that it is another thing than before.
pub fn tell_broken(
    alloc: Global,
    words: &Words,
    body: &str,
    to: &mut Vec<u8>,
) -> Result<(), Memory> {
    let (script, rest) = body.split_once(THEN).unwrap_or((body, ""));
    let rest = input_of(alloc, rest)?;
    let mut begun = Vec::new(alloc);
    let mut before = Vec::new(alloc);
    for (place, line) in script.lines().enumerate() {
        spell_line(line, &mut begun)?;
        let told = told_last(alloc, words, begun.as_slice(), rest.as_slice())?;
        if told.as_slice() != before.as_slice() {
            tell(place, told.as_slice(), to)?;
            before = told;
        }
    }
    Ok(())
}

fn tell(place: usize, told: &[u8], to: &mut Vec<u8>) -> Result<(), Memory> {
    let line = place.saturating_add(1);
    if write!(to, "behind line {line}:").is_err() {
        return Err(Memory);
    }
    to.extend_from_slice(told)?;
    to.push(b'\n')?;
    Ok(())
}

/// What is told of the last line, without its number.
fn told_last(alloc: Global, words: &Words, begun: &[u8], rest: &[u8]) -> Result<Vec<u8>, Memory> {
    let mut input = Vec::new(alloc);
    input.extend_from_slice(begun)?;
    input.extend_from_slice(rest)?;
    let mut report = Vec::new(alloc);
    let _status = write_call(alloc, words, input.as_slice(), &mut report)?;
    let mut number = Vec::new(alloc);
    let count = input.iter().filter(|byte| **byte == b'\n').count();
    if write!(number, "{count} ").is_err() {
        return Err(Memory);
    }
    told_of(alloc, number.as_slice(), report.as_slice())
}

/// The lines of a report that begin with this number, without it.
fn told_of(alloc: Global, number: &[u8], report: &[u8]) -> Result<Vec<u8>, Memory> {
    let mut told = Vec::new(alloc);
    for line in report.split(|byte| *byte == b'\n') {
        if let Some(text) = line.strip_prefix(number) {
            told.push(b' ')?;
            told.extend_from_slice(text)?;
        }
    }
    Ok(told)
}
