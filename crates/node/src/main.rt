//! The program `node`. It makes the words, the file, the ports, the clock, the log and the book of the
//! host's, and hands them to `node_book_main`; and standard error to `tell_book_end`.
#![tactic(auto)]

mod book;
mod file;

use crate::book::NodeBook;
use crate::file::SettingsFile;
use line_base::{Memory, Word, Words};
use line_outside::{HostClock, SocketPorts, WriterSink};
use node_cli::{BookStatus, NodeStatus, node_book_main, tell_book_end};
use std::alloc::AllocError;
use std::fs::File;
use std::net::Net;
use std::process::ExitCode;
use std::rt::{Clock, Env, Files};
use std::{env, io};

fn main(rt: HostRuntime) -> ExitCode {
    let status = match run(&rt) {
        Ok(status) => status,
        Err(Memory) => BookStatus::Node(NodeStatus::Memory),
    };
    let _told = tell_book_end(rt.alloc(), status, &mut WriterSink::new(rt.stderr()));
    ExitCode::from(status.exit_number())
}

fn run<R>(rt: &R) -> Result<BookStatus, Memory>
where
    R: Net + Clock + Clone + Drop + Env + Files<File = File> + Print + AllocGlobal,
{
    let words = words_of(rt)?;
    let mut file = SettingsFile::open(rt, &words);
    let mut ports = SocketPorts::new(copy_of(rt)?);
    let mut clock = HostClock::new(copy_of(rt)?);
    let mut log = WriterSink::new(io::writer(rt));
    let mut book = NodeBook::beside(rt.alloc(), copy_of(rt)?, &words)?;
    Ok(node_book_main(
        rt.alloc(),
        &words,
        &mut file,
        &mut ports,
        &mut clock,
        &mut log,
        &mut book,
    ))
}

fn copy_of<R: Clone>(rt: &R) -> Result<R, Memory> {
    let copy: Result<R, AllocError> = rt.clone();
    match copy {
        Ok(copy) => Ok(copy),
        Err(_) => Err(Memory),
    }
}

/// The words behind the program's name. Where one of them is no text, there are none, so that the
/// program ends as with no word.
fn words_of<R: Env + AllocGlobal>(rt: &R) -> Result<Words, Memory> {
    let mut words = Words::new(rt.alloc());
    match env::args(rt) {
        Ok(arguments) => {
            for argument in arguments.skip(1) {
                words.push(Word::of(rt.alloc(), argument.as_bytes())?)?;
            }
        }
        Err(error) => {
            if error.kind() == io::ErrorKind::OutOfMemory {
                return Err(Memory);
            }
        }
    }
    Ok(words)
}
