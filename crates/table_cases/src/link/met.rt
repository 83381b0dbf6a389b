//! What a link meets.

use crate::link::told;
use line_base::{Memory, Role};
use line_link::{Link, Sent};
use std::alloc::Global;
use std::io;
use std::io::Write;

/// Does the event that a word names: `connect`, `cut`, and with an end, `up` or `down`,
/// `close:up`, `spoil:up`, `next:up`, `next:up:3`, `send:up:text`, `fill:up:1000` for a text of so
/// many bytes, and `answer:text` for what tells a second connection.
pub fn meet(alloc: Global, link: &mut Link, word: &str, to: &mut Vec<u8>) -> io::Result<()> {
    match word {
        "connect" => connect(link, to),
        "cut" => {
            link.cut();
            to.write_all(b"cut,")
        }
        _ => match word.split_once(":") {
            Some((event, rest)) => meet_at(alloc, link, event, rest, to),
            None => to.write_all(b"nothing,"),
        },
    }
}

fn connect(link: &mut Link, to: &mut Vec<u8>) -> io::Result<()> {
    match link.number(Role::Downstream) {
        None => told::connected(link.connect(), to),
        Some(_) => to.write_all(b"connected,"),
    }
}

fn meet_at(
    alloc: Global,
    link: &mut Link,
    event: &str,
    rest: &str,
    to: &mut Vec<u8>,
) -> io::Result<()> {
    if event == "answer" {
        return told::sent(link.answer_second(rest.as_bytes()), to);
    }
    let (name, value) = match rest.split_once(":") {
        Some((name, value)) => (name, value),
        None => (rest, ""),
    };
    let end = end_of(name);
    match event {
        "close" => {
            link.close(end);
            to.write_all(b"closed,")
        }
        "spoil" => spoil(link, end, to),
        "next" => next(link, end, value, to),
        "send" => told::sent(link.send(end, value.as_bytes()), to),
        "fill" => told::sent(fill(alloc, link, end, value), to),
        _ => to.write_all(b"nothing,"),
    }
}

fn end_of(name: &str) -> Role {
    if name == "up" {
        Role::Upstream
    } else {
        Role::Downstream
    }
}

fn spoil(link: &mut Link, end: Role, to: &mut Vec<u8>) -> io::Result<()> {
    if link.stands() {
        told::sent(link.spoil(end), to)
    } else {
        to.write_all(b"not standing,")
    }
}

/// The bytes that arrive, and then they have.
fn next(link: &mut Link, end: Role, value: &str, to: &mut Vec<u8>) -> io::Result<()> {
    let count = value.parse::<u32>().ok();
    told::bytes(link.next(end, count), to)?;
    link.arrive(end, count);
    Ok(())
}

/// A text of so many bytes.
fn fill(alloc: Global, link: &mut Link, end: Role, value: &str) -> Result<Sent, Memory> {
    let count = value.parse::<u32>().unwrap_or(0);
    match vec![in alloc; b'x'; count as usize] {
        Ok(text) => link.send(end, text.as_slice()),
        Err(_) => Err(Memory),
    }
}
