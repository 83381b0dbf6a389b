use line_outside::{MemorySource, SteadySink};
use log_verdict::{Checked, check_log};
use std::alloc::{AllocError, Global};
use std::io::{self, Write};
use std::str;

/// How many bytes a verdict has at most.
const VERDICT_BYTES: usize = 100;

/// What stands before the moment in a message.
const TIMESTAMP: &str = " Timestamp=\"";

/// Appends a heading and a text that was taken, without its moments, which are those of the host's
/// clock.
pub fn tell_taken(heading: &str, text: &[u8], to: &mut Vec<u8>) -> Result<(), AllocError> {
    append(heading, to)?;
    if text.is_empty() {
        append("nothing", to)?;
    }
    let text = str::from_utf8(text).unwrap_or("no text");
    for (index, piece) in text.split(TIMESTAMP).enumerate() {
        if index == 0 {
            append(piece, to)?;
        } else {
            append(behind_moment(piece), to)?;
        }
    }
    append("\n", to)
}

fn behind_moment(piece: &str) -> &str {
    match piece.split_once('"') {
        Some((_, rest)) => rest,
        None => "",
    }
}

/// Appends the lines of a log without the numbers of their turns, which no two runs share.
pub fn tell_log(log: &[u8], to: &mut Vec<u8>) -> Result<(), AllocError> {
    for line in str::from_utf8(log).unwrap_or("no text").lines() {
        append(behind_turn(line), to)?;
        append("\n", to)?;
    }
    Ok(())
}

fn behind_turn(line: &str) -> &str {
    match line.split_once(' ') {
        Some((_, rest)) => rest,
        None => line,
    }
}

/// Appends the lines of a merged log but for messages, which a machine may hear in other pieces,
/// and without the numbers of their turns.
pub fn tell_merged(log: &[u8], to: &mut Vec<u8>) -> Result<(), AllocError> {
    for line in str::from_utf8(log).unwrap_or("no text").lines() {
        let text = behind_turn(behind_turn(line));
        if !text.starts_with("hears ") && !text.starts_with("sends ") {
            tell_line(line, to)?;
        }
    }
    Ok(())
}

/// Appends a line of a merged log without the number of its turn.
fn tell_line(line: &str, to: &mut Vec<u8>) -> Result<(), AllocError> {
    let (machine, _) = line.split_once(' ').unwrap_or((line, ""));
    append(machine, to)?;
    append(" ", to)?;
    append(behind_turn(behind_turn(line)), to)?;
    append("\n", to)
}

/// Appends what the checker of merged logs says of this one.
pub fn tell_verdict(alloc: Global, log: &[u8], to: &mut Vec<u8>) -> io::Result<()> {
    match verdict_of(alloc, log) {
        Checked::Done => append("line check: yes\n", to)?,
        Checked::Refuted { why, .. } => writeln!(to, "line check: no .. {why}")?,
        _ => append("line check: it came to no end\n", to)?,
    }
    Ok(())
}

fn verdict_of(alloc: Global, log: &[u8]) -> Checked {
    let Ok(mut source) = MemorySource::new(alloc, log, &[]) else {
        return Checked::Memory;
    };
    let Ok(mut verdict) = SteadySink::new(alloc, VERDICT_BYTES) else {
        return Checked::Memory;
    };
    check_log(alloc, &mut source, &mut verdict)
}

/// Appends a text.
pub fn append(text: &str, to: &mut Vec<u8>) -> Result<(), AllocError> {
    to.extend_from_slice(text.as_bytes())?;
    Ok(())
}
