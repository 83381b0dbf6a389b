//! A case: a name, a log, and what is written of its boards.

use board_record::BoardId;
use board_traces::{trace_board, trace_log};
use case_text::spell;
use line_base::Memory;
use std::alloc::Global;
use std::io::Write;

/// Appends a case's first line, what is written of its log, and what that is found to be.
///
/// The first line is the case's name, maybe with `, ` and a board's id after it: then it is the
/// trace of that board. The others spell the log, each with a line end, unless it ends in `\`.
pub fn tell_case(alloc: Global, case: &str, to: &mut Vec<u8>) -> Result<(), Memory> {
    let (head, body) = case.split_once('\n').unwrap_or((case, ""));
    let (_name, board) = head.split_once(", ").unwrap_or((head, ""));
    let log = log_of(alloc, body)?;
    tell_head(head, to)?;
    let verdict = match BoardId::read(board.as_bytes()) {
        Ok(id) => trace_board(alloc, id, log.as_slice(), to)?,
        Err(_) => trace_log(alloc, log.as_slice(), to)?,
    };
    match write!(to, "--- {verdict:?}\n") {
        Ok(()) => Ok(()),
        Err(_) => Err(Memory),
    }
}

fn tell_head(head: &str, to: &mut Vec<u8>) -> Result<(), Memory> {
    match write!(to, "=== {head}\n") {
        Ok(()) => Ok(()),
        Err(_) => Err(Memory),
    }
}

/// The log of a case.
fn log_of(alloc: Global, body: &str) -> Result<Vec<u8>, Memory> {
    let mut log = Vec::new(alloc);
    for line in body.lines() {
        spell_line(line, &mut log)?;
    }
    Ok(log)
}

fn spell_line(line: &str, log: &mut Vec<u8>) -> Result<(), Memory> {
    match line.strip_suffix('\\') {
        Some(front) => spell(front, log)?,
        None => {
            spell(line, log)?;
            log.push(b'\n')?;
        }
    }
    Ok(())
}
