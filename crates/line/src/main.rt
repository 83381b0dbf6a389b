//! The program `line`. It makes the words, the source and the sink of the host's, and hands them
//! to `line_main`.
#![tactic(auto)]

use line_base::{Memory, Word, Words};
use line_cli::{Status, line_main};
use line_outside::{ReaderSource, Sink, Source, WriterSink};
use std::alloc::Global;
use std::process::ExitCode;
use std::rt::Env;
use std::{env, io};

fn main(rt: HostRuntime) -> ExitCode {
    let status = match words_of(&rt) {
        Ok(words) => {
            let mut script = ReaderSource::new(rt.stdin());
            let mut report = WriterSink::new(io::writer(&rt));
            answer(rt.alloc(), &words, &mut script, &mut report)
        }
        Err(Memory) => Status::Memory,
    };
    ExitCode::from(status.exit_number())
}

/// The answer of `line_main`. Of all that holds of it, `main` needs nothing to end with its number.
fn answer<S: Source, K: Sink>(
    alloc: Global,
    words: &Words,
    script: &mut S,
    report: &mut K,
) -> Status {
    line_main(alloc, words, script, report)
}

/// The words behind the program's name. Where one of them is no text, there are none, so that the
/// program answers with its usage.
fn words_of<R: Env + AllocGlobal>(rt: &R) -> Result<Words, Memory> {
    let mut words = Words::new(rt.alloc());
    match env::args(rt) {
        Ok(arguments) => {
            for argument in arguments.skip(1) {
                words.push(Word::of(rt.alloc(), argument.as_bytes())?)?;
            }
        }
        Err(error) => {
            if error.kind() == io::ErrorKind::OutOfMemory {
                return Err(Memory);
            }
        }
    }
    Ok(words)
}
