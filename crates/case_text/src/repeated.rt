use crate::spelled::spell;
use std::alloc::{AllocError, Global};

/// How often a line of a case stands, and the line: `*N ` before it stands for N times.
pub fn times_of(line: &str) -> (u64, &str) {
    match line.strip_prefix('*').and_then(|rest| rest.split_once(' ')) {
        Some((times, line)) => (times.parse().unwrap_or(0), line),
        None => (1, line),
    }
}

/// Appends the bytes that a line spells at this one of its times: `#` in it stands for that
/// number, in eight hexadecimal digits.
pub fn spell_time(
    alloc: Global,
    number: u64,
    line: &str,
    to: &mut Vec<u8>,
) -> Result<(), AllocError> {
    let Some((front, back)) = line.split_once('#') else {
        return spell(line, to);
    };
    let number = format!(in alloc; "{number:08x}")?;
    spell(front, to)?;
    to.extend_from_slice(number.as_bytes())?;
    spell(back, to)
}
