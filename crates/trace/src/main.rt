//! The program `trace`: writes what became of each board that a merged log tells of.
#![tactic(auto)]

use board_record::BoardId;
use board_traces::{Verdict, trace_board, trace_log};
use line_outside::{Pushed, WriterSink, push_all};
use std::alloc::Global;
use std::io::{Read, Write};
use std::process::ExitCode;
use std::rt::Env;
use std::{env, io};

const USAGE: &str = "usage: trace [<board id>] < <merged log>; bin/merge-logs makes one";

fn main(rt: HostRuntime) -> ExitCode {
    let end = match run(&rt) {
        Ok(Verdict::Right) => return ExitCode::from(0),
        Ok(Verdict::Refused) => return ExitCode::from(8),
        Err(end) => end,
    };
    let mut text = Vec::new(rt.alloc());
    if put_end(end, &mut text).is_ok() {
        let _told = push_all(&mut WriterSink::new(rt.stderr()), text.as_slice());
    }
    ExitCode::from(end.exit_number())
}

/// Why no whole trace was written. The numbers are those of `line`.
#[derive(Clone, Copy)]
enum End {
    Usage,
    Log,
    Text,
    Memory,
}

impl End {
    fn exit_number(self) -> u8 {
        match self {
            End::Usage => 2,
            End::Log => 4,
            End::Text => 5,
            End::Memory => 6,
        }
    }
}

fn put_end(end: End, to: &mut Vec<u8>) -> io::Result<()> {
    match end {
        End::Usage => write!(to, "{USAGE}\n"),
        End::Log => write!(to, "trace: can't read the log\n"),
        End::Text => write!(to, "trace: can't write the trace\n"),
        End::Memory => write!(to, "trace: out of memory\n"),
    }
}

fn run<R: Env + Input + Print + AllocGlobal>(rt: &R) -> Result<Verdict, End> {
    let board = board_of(rt)?;
    let log = log_of(rt)?;
    let mut text = Vec::new(rt.alloc());
    let verdict = traced(rt.alloc(), board, log.as_slice(), &mut text)?;
    match push_all(&mut WriterSink::new(io::writer(rt)), text.as_slice()) {
        Pushed::Whole => Ok(verdict),
        Pushed::Failed => Err(End::Text),
    }
}

/// The board that the one word after the program's name is the id of, if there is a word.
fn board_of<R: Env + AllocGlobal>(rt: &R) -> Result<Option<BoardId>, End> {
    let Ok(words) = env::args(rt) else {
        return Err(End::Usage);
    };
    let mut words = words.skip(1);
    match (words.next(), words.next()) {
        (None, _) => Ok(None),
        (Some(word), None) => match BoardId::read(word.as_bytes()) {
            Ok(id) => Ok(Some(id)),
            Err(_) => Err(End::Usage),
        },
        _ => Err(End::Usage),
    }
}

fn log_of<R: Input + AllocGlobal>(rt: &R) -> Result<Vec<u8>, End> {
    let mut log = Vec::new(rt.alloc());
    match rt.reader().read_to_end(&mut log) {
        Ok(_) => Ok(log),
        Err(error) if error.kind() == io::ErrorKind::OutOfMemory => Err(End::Memory),
        Err(_) => Err(End::Log),
    }
}

fn traced(
    alloc: Global,
    board: Option<BoardId>,
    log: &[u8],
    text: &mut Vec<u8>,
) -> Result<Verdict, End> {
    let answer = match board {
        Some(id) => trace_board(alloc, id, log, text),
        None => trace_log(alloc, log, text),
    };
    match answer {
        Ok(verdict) => Ok(verdict),
        Err(_) => Err(End::Memory),
    }
}
