use crate::numbers::{calls_of, number_of, room_of};
use crate::parts::{part, three_of, two_of};
use line_base::Word;
use line_outside::{
    Address, Got, GotBytes, MemoryPorts, Opened, PortAnswer, PortCall, Ports, Sent, Way,
};
use std::alloc::{AllocError, Global};
use std::str;

/// The calls that fail, the room for calls and for bytes, the answers in store, and what is asked
/// in turn.
pub fn memory(alloc: Global, asked: &str) -> Result<String, AllocError> {
    let Some((failing, rooms, answers, asks)) = parts_of(asked) else {
        return String::from_str(alloc, "no case");
    };
    let answers = answers_of(alloc, answers)?;
    let failing = calls_of(alloc, failing)?;
    let (calls, bytes) = rooms_of(rooms);
    let made = MemoryPorts::failing(alloc, answers.as_slice(), calls, bytes, failing.as_slice());
    match made {
        Ok(mut ports) => {
            let said = all_said(alloc, &mut ports, asks);
            drop(ports);
            said
        }
        Err(_) => Err(AllocError),
    }
}

fn parts_of(asked: &str) -> Option<(&str, &str, &str, &str)> {
    let (failing, asked) = two_of(asked)?;
    let (rooms, answers, asks) = three_of(asked)?;
    Some((failing, rooms, answers, asks))
}

/// Room for so many calls, and for so many bytes.
fn rooms_of(words: &str) -> (usize, usize) {
    let (calls, bytes) = words.split_once('/').unwrap_or((words, "0"));
    (number_of(calls), number_of(bytes))
}

fn answers_of(alloc: Global, words: &str) -> Result<Vec<PortAnswer>, AllocError> {
    let mut answers = Vec::new(alloc);
    for word in words.split(',') {
        if let Some((way, what)) = word.split_once('=') {
            let got = got_of(alloc, what)?;
            answers.push(PortAnswer {
                way: way_of(way),
                got,
            })?;
        }
    }
    Ok(answers)
}

fn got_of(alloc: Global, what: &str) -> Result<GotBytes, AllocError> {
    if what == "!arrived" {
        return Ok(GotBytes::Arrived);
    }
    if what == "!second" {
        return Ok(GotBytes::Second);
    }
    if what == "!not-yet" {
        return Ok(GotBytes::NotYet);
    }
    if what == "!closed" {
        return Ok(GotBytes::Closed);
    }
    if what == "!failed" {
        return Ok(GotBytes::Failed);
    }
    bytes_of(alloc, what)
}

fn bytes_of(alloc: Global, text: &str) -> Result<GotBytes, AllocError> {
    match Word::of(alloc, text.as_bytes()) {
        Ok(word) => Ok(GotBytes::Bytes(word)),
        Err(_) => Err(AllocError),
    }
}

fn way_of(word: &str) -> Way {
    if word == "up" {
        return Way::Upstream;
    }
    if word == "down" {
        return Way::Downstream;
    }
    if word == "super" {
        return Way::Supervisory;
    }
    if word == "config" {
        return Way::Configuration;
    }
    Way::Panel
}

/// All answers, and at last what is told.
fn all_said(alloc: Global, ports: &mut MemoryPorts, asks: &str) -> Result<String, AllocError> {
    let mut said = String::new(alloc);
    for ask in asks.split(',') {
        part(&mut said)?;
        say(alloc, ports, ask, &mut said)?;
    }
    said.push_str("; ")?;
    tell(ports, &mut said)?;
    Ok(said)
}

fn say(
    alloc: Global,
    ports: &mut MemoryPorts,
    ask: &str,
    said: &mut String,
) -> Result<(), AllocError> {
    let (call, ask) = ask.split_once(':').unwrap_or((ask, ""));
    let (way, what) = ask.split_once(':').unwrap_or((ask, ""));
    let way = way_of(way);
    if call == "poll" {
        return say_poll(alloc, ports, way, what, said);
    }
    if call == "send" && !what.is_empty() {
        return said.push_str(sent_text(ports.send(way, what.as_bytes())));
    }
    if call == "refuse" {
        return said.push_str(sent_text(ports.refuse(way, what.as_bytes())));
    }
    if call == "listen" {
        return said.push_str(opened_text(ports.listen(way, ADDRESS)));
    }
    if call == "connect" {
        return said.push_str(opened_text(ports.connect(way, ADDRESS)));
    }
    ports.close(way);
    said.push_str("-")
}

const ADDRESS: Address = Address {
    host: [10, 0, 0, 7],
    port: 900,
};

fn say_poll(
    alloc: Global,
    ports: &mut MemoryPorts,
    way: Way,
    room: &str,
    said: &mut String,
) -> Result<(), AllocError> {
    let mut bytes = vec![in alloc; b'.'; room_of(room)]?;
    let got = ports.poll(way, bytes.as_mut_slice());
    say_got(got, bytes.as_slice(), said)
}

fn say_got(got: Got, room: &[u8], said: &mut String) -> Result<(), AllocError> {
    match got {
        Got::Bytes(count) => {
            let room = str::from_utf8(room).unwrap_or("no text");
            write!(said, "{count} {room}")
        }
        Got::Arrived => said.push_str("arrived"),
        Got::Second => said.push_str("second"),
        Got::NotYet => said.push_str("not yet"),
        Got::Closed => said.push_str("closed"),
        Got::Failed => said.push_str("failed"),
    }
}

fn opened_text(opened: Opened) -> &'static str {
    match opened {
        Opened::Done => "done",
        Opened::Failed => "failed",
    }
}

fn sent_text(sent: Sent) -> &'static str {
    match sent {
        Sent::Took(0) => "took 0",
        Sent::Took(2) => "took 2",
        Sent::Took(_) => "took",
        Sent::NotYet => "not yet",
        Sent::Closed => "closed",
        Sent::Failed => "failed",
    }
}

/// How many calls are told, and their bytes.
fn tell(ports: &MemoryPorts, said: &mut String) -> Result<(), AllocError> {
    match ports.told() {
        Some((calls, bytes)) => {
            let count = calls.len();
            let polls = polls_among(calls);
            let bytes = str::from_utf8(bytes).unwrap_or("no text");
            write!(said, "{count} calls, {polls} polls, [{bytes}]")
        }
        None => said.push_str("untold"),
    }
}

fn polls_among(calls: &[PortCall]) -> usize {
    calls
        .iter()
        .filter(|call| matches!(call, PortCall::Polls { .. }))
        .count()
}
