//! What there is to read in a case.

use case_text::{spell, spell_time, times_of};
use line_base::Memory;
use std::alloc::Global;

/// The bytes of a case's lines: each with a line end, unless it ends in `\`, and as often as it
/// says.
pub fn input_of(alloc: Global, body: &str) -> Result<Vec<u8>, Memory> {
    let mut input = Vec::new(alloc);
    for line in body.lines() {
        let (times, line) = times_of(line);
        spell_often(alloc, times, line, &mut input)?;
    }
    Ok(input)
}

fn spell_often(alloc: Global, times: u64, line: &str, to: &mut Vec<u8>) -> Result<(), Memory> {
    if times == 1 {
        return spell_line(line, to);
    }
    for number in 1..=times {
        spell_time(alloc, number, line, to)?;
        to.push(b'\n')?;
    }
    Ok(())
}

/// Appends the bytes of one line.
pub fn spell_line(line: &str, to: &mut Vec<u8>) -> Result<(), Memory> {
    match line.strip_suffix('\\') {
        Some(front) => spell(front, to)?,
        None => {
            spell(line, to)?;
            to.push(b'\n')?;
        }
    }
    Ok(())
}
