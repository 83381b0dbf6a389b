use crate::answers::answer_of;
use crate::books::{book_of, tell_book};
use crate::calls::{tell_calls, written};
use crate::ends::{tell_named, tell_status};
use crate::inputs::{LOG_BYTES, TOLD_BYTES, TOLD_CALLS, settings_of, words_of};
use crate::limits::tell_limit;
use line_base::{Memory, Moment};
use line_outside::{FixedClock, MemoryPorts, MemorySink, MemorySource, PortAnswer};
use node_cli::{BookStatus, NodeStatus, node_book_main};
use std::alloc::Global;
use std::io::Write;

/// Tells a case: its first line, the calls of the ports, the log, the book where the case has one, how
/// the run ends, and what is said of that. A first line `an end: NAME` is a case of the end of that name alone,
/// `at a limit: NAME` one whose texts are counted.
pub fn tell_case(alloc: Global, case: &str, to: &mut Vec<u8>) -> Result<(), Memory> {
    let (head, body) = case.split_once('\n').unwrap_or((case, ""));
    written(write!(to, "=== {head}\n"))?;
    let (words, faults) = head.split_once(", ").unwrap_or((head, ""));
    if let Some(name) = words.strip_prefix("an end: ") {
        return tell_named(alloc, name, pushes_of(faults), to);
    }
    if words.starts_with("at a limit: ") {
        return tell_limit(alloc, faults, body, to);
    }
    tell_run(alloc, words, faults, body, to)
}

/// A run that ends for want of memory ends the program so, too, and nothing of the case is told.
fn tell_run(
    alloc: Global,
    words: &str,
    faults: &str,
    body: &str,
    to: &mut Vec<u8>,
) -> Result<(), Memory> {
    let words = words_of(alloc, words)?;
    let settings = settings_of(alloc, body)?;
    let answers = answers_of(alloc, body)?;
    let mut file = source_of(alloc, settings.as_slice(), faults)?;
    let mut ports = ports_of(alloc, answers.as_slice(), faults)?;
    let mut log = MemorySink::new(alloc, LOG_BYTES, pushes_of(faults))?;
    let mut clock = FixedClock::new(Moment::of_millis(0));
    let mut book = book_of(alloc, body, faults)?;
    let status = node_book_main(
        alloc, &words, &mut file, &mut ports, &mut clock, &mut log, &mut book,
    );
    if status == BookStatus::Node(NodeStatus::Memory) {
        return Err(Memory);
    }
    tell_ports(&ports, to)?;
    tell_log(&log, to)?;
    tell_book(&book, body, to)?;
    tell_status(alloc, status, &[], to)
}

fn append(bytes: &[u8], to: &mut Vec<u8>) -> Result<(), Memory> {
    written(to.extend_from_slice(bytes))
}

/// What the ports have in store: the lines that begin with `<`.
fn answers_of(alloc: Global, body: &str) -> Result<Vec<PortAnswer>, Memory> {
    let mut answers = Vec::new(alloc);
    for line in body.lines() {
        if let Some(words) = line.strip_prefix("< ") {
            answers.push(answer_of(alloc, words)?)?;
        }
    }
    Ok(answers)
}

fn source_of(alloc: Global, bytes: &[u8], faults: &str) -> Result<MemorySource, Memory> {
    if faults == "the first pull fails" {
        return MemorySource::new(alloc, bytes, &[1]);
    }
    MemorySource::new(alloc, bytes, &[])
}

/// Which pushes into a sink fail.
fn pushes_of(faults: &str) -> &'static [u64] {
    match faults {
        "the first push fails" => &[1],
        _ => &[],
    }
}

fn ports_of(alloc: Global, answers: &[PortAnswer], faults: &str) -> Result<MemoryPorts, Memory> {
    match faults.strip_prefix("failing call ") {
        Some(number) => {
            let number = number.parse::<u64>().unwrap_or(0);
            MemoryPorts::failing(alloc, answers, TOLD_CALLS, TOLD_BYTES, &[number])
        }
        None => MemoryPorts::new(alloc, answers, TOLD_CALLS, TOLD_BYTES),
    }
}

fn tell_ports(ports: &MemoryPorts, to: &mut Vec<u8>) -> Result<(), Memory> {
    match ports.told() {
        Some((calls, bytes)) => tell_calls(calls, bytes, to),
        None => written(write!(to, "> untold\n")),
    }
}

fn tell_log(log: &MemorySink, to: &mut Vec<u8>) -> Result<(), Memory> {
    append(log.contents().unwrap_or(b"untold"), to)
}
