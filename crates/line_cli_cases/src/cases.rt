//! A case: a command line, what the program gets to read, and what it then writes.

use crate::broken::tell_broken;
use crate::calls::{count_unread, tell_call, tell_call_in_pieces, words_of};
use crate::ending::tell_ending;
use crate::faults::{tell_pulls, tell_pushes};
use crate::inputs::input_of;
use line_base::{Memory, Words};
use std::alloc::Global;
use std::io::Write;

/// How many bytes a case has at most that is tried in small pieces too.
const SMALL: usize = 1000;

/// Appends a case's command line, what is written, and how the call ends.
///
/// The first line of a case is the command line, maybe with a form behind it. The others spell
/// what there is to read. A small case in which no call fails must answer the same from pieces of
/// 1 to 64 bytes.
pub fn tell_case(alloc: Global, case: &str, to: &mut Vec<u8>) -> Result<(), Memory> {
    let (head, body) = case.split_once('\n').unwrap_or((case, ""));
    let (command, form) = head.split_once(", ").unwrap_or((head, ""));
    let words = words_of(alloc, command)?;
    append(&[b"=== ", head.as_bytes(), b"\n"], to)?;
    match form {
        "broken off behind each line" => tell_broken(alloc, &words, body, to),
        _ => tell_form(alloc, &words, form, body, to),
    }
}

fn tell_form(
    alloc: Global,
    words: &Words,
    form: &str,
    body: &str,
    to: &mut Vec<u8>,
) -> Result<(), Memory> {
    let input = input_of(alloc, body)?;
    match form {
        "" => tell_steady(alloc, words, input.as_slice(), to),
        "each pull failing" => tell_pulls(alloc, words, input.as_slice(), to),
        "each push failing" => tell_pushes(alloc, words, input.as_slice(), to),
        "its end" => tell_ending(alloc, words, input.as_slice(), to),
        _ => tell_failing(alloc, words, form, input.as_slice(), to),
    }
}

/// `failing pull N` and `failing push N`.
fn tell_failing(
    alloc: Global,
    words: &Words,
    form: &str,
    input: &[u8],
    to: &mut Vec<u8>,
) -> Result<(), Memory> {
    let (what, number) = form.rsplit_once(' ').unwrap_or((form, ""));
    let number = number.parse().unwrap_or(0);
    match what {
        "failing pull" => tell_call(alloc, words, input, &[number], &[], to),
        "failing push" => tell_call(alloc, words, input, &[], &[number], to),
        _ => append(&[b"no such form\n"], to),
    }
}

/// Appends a case in which no call fails.
fn tell_steady(alloc: Global, words: &Words, input: &[u8], to: &mut Vec<u8>) -> Result<(), Memory> {
    let mut told = Vec::new(alloc);
    tell_call(alloc, words, input, &[], &[], &mut told)?;
    append(&[told.as_slice()], to)?;
    if told.ends_with(b"--- Usage\n") {
        let count = count_unread(alloc, words, input)?;
        if write!(to, "{count} bytes unread\n").is_err() {
            return Err(Memory);
        }
    }
    if input.len() <= SMALL {
        tell_pieces(alloc, words, input, told.as_slice(), to)?;
    }
    Ok(())
}

/// Appends what is written where it is another thing from small pieces than from the whole.
fn tell_pieces(
    alloc: Global,
    words: &Words,
    input: &[u8],
    whole: &[u8],
    to: &mut Vec<u8>,
) -> Result<(), Memory> {
    for size in 1..65 {
        let mut told = Vec::new(alloc);
        tell_call_in_pieces(alloc, words, input, size, &mut told)?;
        if told.as_slice() != whole {
            append(&[b"in small pieces: ", told.as_slice()], to)?;
        }
    }
    Ok(())
}

fn append(parts: &[&[u8]], to: &mut Vec<u8>) -> Result<(), Memory> {
    for part in parts {
        to.extend_from_slice(part)?;
    }
    Ok(())
}
