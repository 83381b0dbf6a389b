use crate::host::Host;
use crate::numbers::{calls_of, room_of};
use crate::parts::{part, three_of, two_of};
use line_outside::{MemorySink, Push, Pushed, Sink, SteadySink, WriterSink, push_all};
use std::alloc::{AllocError, Global};
use std::str;

/// The room, the calls that fail, and the pieces, each pushed once.
pub fn memory(alloc: Global, asked: &str) -> Result<String, AllocError> {
    let (room, failing, pieces) = match three_of(asked) {
        Some(parts) => parts,
        None => return String::from_str(alloc, "no case"),
    };
    let failing = calls_of(alloc, failing)?;
    match MemorySink::new(alloc, room_of(room), failing.as_slice()) {
        Ok(mut sink) => {
            let told = pushes(alloc, &mut sink, pieces);
            drop(sink);
            told
        }
        Err(_) => Err(AllocError),
    }
}

/// The room, the calls that fail, and the pieces, of which each is pushed whole.
pub fn whole(alloc: Global, asked: &str) -> Result<String, AllocError> {
    let (room, failing, pieces) = match three_of(asked) {
        Some(parts) => parts,
        None => return String::from_str(alloc, "no case"),
    };
    let failing = calls_of(alloc, failing)?;
    match MemorySink::new(alloc, room_of(room), failing.as_slice()) {
        Ok(mut sink) => {
            let told = whole_pushes(alloc, &mut sink, pieces);
            drop(sink);
            told
        }
        Err(_) => Err(AllocError),
    }
}

fn whole_pushes(alloc: Global, sink: &mut MemorySink, pieces: &str) -> Result<String, AllocError> {
    let mut told = String::new(alloc);
    for piece in pieces.split(' ') {
        let pushed = pushed_text(push_all(sink, piece.as_bytes()));
        append(&mut told, pushed, sink.contents())?;
    }
    Ok(told)
}

fn pushes(alloc: Global, sink: &mut MemorySink, pieces: &str) -> Result<String, AllocError> {
    let mut told = String::new(alloc);
    for piece in pieces.split(' ') {
        if !piece.is_empty() {
            part(&mut told)?;
            say_push(sink.push(piece.as_bytes()), &mut told)?;
            say_contents(sink.contents(), &mut told)?;
        }
    }
    Ok(told)
}

/// The room, and the pieces, of which each is pushed whole.
pub fn steady(alloc: Global, asked: &str) -> Result<String, AllocError> {
    let (room, pieces) = match two_of(asked) {
        Some(parts) => parts,
        None => return String::from_str(alloc, "no case"),
    };
    match SteadySink::new(alloc, room_of(room)) {
        Ok(mut sink) => {
            let told = steady_pushes(alloc, &mut sink, pieces);
            drop(sink);
            told
        }
        Err(_) => Err(AllocError),
    }
}

fn steady_pushes(alloc: Global, sink: &mut SteadySink, pieces: &str) -> Result<String, AllocError> {
    let mut told = String::new(alloc);
    for piece in pieces.split(' ') {
        let pushed = pushed_text(push_all(sink, piece.as_bytes()));
        append(&mut told, pushed, sink.contents())?;
    }
    Ok(told)
}

/// The pieces that are pushed into a writer of the host's, and at last what it wrote.
pub fn writer(alloc: Global, pieces: &str) -> Result<String, AllocError> {
    let mut host = Host::new(alloc);
    let told = written(alloc, &mut host, pieces);
    drop(host);
    told
}

fn written(alloc: Global, host: &mut Host, pieces: &str) -> Result<String, AllocError> {
    let mut told = writes(alloc, host, pieces)?;
    told.push_str("; ")?;
    told.push_str(str::from_utf8(host.bytes()).unwrap_or("no text"))?;
    Ok(told)
}

fn writes(alloc: Global, host: &mut Host, pieces: &str) -> Result<String, AllocError> {
    let mut sink = WriterSink::new(host);
    let mut told = String::new(alloc);
    for piece in pieces.split(' ') {
        if !piece.is_empty() {
            part(&mut told)?;
            say_push(sink.push(piece.as_bytes()), &mut told)?;
        }
    }
    Ok(told)
}

fn say_push(push: Push, told: &mut String) -> Result<(), AllocError> {
    match push {
        Push::Took(count) => write!(told, "{count}"),
        Push::Failed => told.push_str("failed"),
    }
}

fn pushed_text(pushed: Pushed) -> &'static str {
    match pushed {
        Pushed::Whole => "whole",
        Pushed::Failed => "failed",
    }
}

/// Tells an answer with the contents after it.
fn append(told: &mut String, answer: &str, contents: Option<&[u8]>) -> Result<(), AllocError> {
    part(told)?;
    told.push_str(answer)?;
    say_contents(contents, told)
}

/// Tells the contents in brackets, where they are told.
fn say_contents(contents: Option<&[u8]>, told: &mut String) -> Result<(), AllocError> {
    match contents {
        Some(bytes) => {
            let text = str::from_utf8(bytes).unwrap_or("no text");
            write!(told, " [{text}]")
        }
        None => told.push_str(" untold"),
    }
}
