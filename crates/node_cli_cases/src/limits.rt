//! A run at a node's limits, whose texts are too long to be written out: they are counted.

use crate::answers::long_answer_of;
use crate::calls::{got_word, opened_word, sent_word, way_word, written};
use crate::ends::name_node_status;
use crate::inputs::{LOG_BYTES, TOLD_BYTES, TOLD_CALLS, settings_of, words_of};
use line_base::{Memory, Moment};
use line_outside::{
    FixedClock, Got, MemoryPorts, MemorySink, MemorySource, PortAnswer, PortCall, Way,
};
use node_cli::node_main;
use std::alloc::Global;
use std::io::Write;

/// Tells a run: the calls of the ports with how many bytes they carry, how many lines the log has and the
/// last of them, and how the run ends. `failing call N of untold ports` is one over ports that tell
/// nothing, of which that call fails.
pub fn tell_limit(alloc: Global, faults: &str, body: &str, to: &mut Vec<u8>) -> Result<(), Memory> {
    let settings = settings_of(alloc, body)?;
    let answers = answers_of(alloc, body)?;
    let mut ports = ports_of(alloc, answers.as_slice(), faults)?;
    tell_run(alloc, settings.as_slice(), &mut ports, to)
}

fn answers_of(alloc: Global, body: &str) -> Result<Vec<PortAnswer>, Memory> {
    let mut answers = Vec::new(alloc);
    for line in body.lines() {
        if let Some(words) = line.strip_prefix("< ") {
            answers.push(long_answer_of(alloc, words)?)?;
        }
    }
    Ok(answers)
}

fn ports_of(alloc: Global, answers: &[PortAnswer], faults: &str) -> Result<MemoryPorts, Memory> {
    let number = faults.strip_prefix("failing call ").unwrap_or("");
    match number.strip_suffix(" of untold ports") {
        Some(number) => {
            let number = number.parse::<u64>().unwrap_or(0);
            MemoryPorts::failing(alloc, answers, 0, 0, &[number])
        }
        None => MemoryPorts::new(alloc, answers, TOLD_CALLS, TOLD_BYTES),
    }
}

fn tell_run(
    alloc: Global,
    settings: &[u8],
    ports: &mut MemoryPorts,
    to: &mut Vec<u8>,
) -> Result<(), Memory> {
    let words = words_of(alloc, "f")?;
    let mut file = MemorySource::new(alloc, settings, &[])?;
    let mut log = MemorySink::new(alloc, LOG_BYTES, &[])?;
    let mut clock = FixedClock::new(Moment::of_millis(0));
    let status = node_main(alloc, &words, &mut file, ports, &mut clock, &mut log);
    match ports.told() {
        Some((calls, _bytes)) => tell_calls(calls, to)?,
        None => written(write!(to, "> untold\n"))?,
    }
    tell_log(log.contents().unwrap_or(b"untold"), to)?;
    name_node_status(status, to)
}

/// How many lines the log has, and its last.
fn tell_log(log: &[u8], to: &mut Vec<u8>) -> Result<(), Memory> {
    let mut count = 0usize;
    let mut last: &[u8] = b"";
    for line in log.split_inclusive(|byte| *byte == b'\n') {
        count = count.saturating_add(1);
        last = line;
    }
    if count == 0 {
        return written(write!(to, "nothing logged\n"));
    }
    written(write!(to, "{count} lines logged, the last: "))?;
    written(to.extend_from_slice(last))
}

/// Tells the calls, a line each, but for polls that found nothing.
fn tell_calls(calls: &[PortCall], to: &mut Vec<u8>) -> Result<(), Memory> {
    for call in calls {
        tell_call(call, to)?;
    }
    Ok(())
}

fn tell_call(call: &PortCall, to: &mut Vec<u8>) -> Result<(), Memory> {
    match call {
        PortCall::Listens { way, opened, .. } => tell_word(
            "> listen",
            *way,
            opened_word(*opened),
            to,
        ),
        PortCall::Polls {
            got: Got::NotYet,
            ..
        } => Ok(()),
        PortCall::Polls {
            way,
            got: Got::Bytes(count),
            ..
        } => tell_count("<", *way, *count, "", to),
        PortCall::Polls { way, got, .. } => tell_word("<", *way, got_word(*got), to),
        PortCall::Sends { way, piece, sent } => tell_count(
            "> send",
            *way,
            *piece,
            sent_word(*sent),
            to,
        ),
        PortCall::Closes { way } => tell_word("> close", *way, "", to),
        _ => written(write!(to, "> another call\n")),
    }
}

fn tell_word(word: &str, way: Way, what: &str, to: &mut Vec<u8>) -> Result<(), Memory> {
    let way = way_word(way);
    written(write!(to, "{word} {way}{what}\n"))
}

fn tell_count(
    word: &str,
    way: Way,
    count: usize,
    what: &str,
    to: &mut Vec<u8>,
) -> Result<(), Memory> {
    let way = way_word(way);
    written(write!(to, "{word} {way} {count} bytes{what}\n"))
}
