//! The program `book`: writes the log that the restart book of a node tells to standard output.
#![tactic(auto)]

ghost use Rattle.std.specs.Prelude.{◌≤◌, ◌<◌, ◌^◌, IfOk};

use book_log::{LogError, tell_book};
use line_outside::{WriterSink, push_all};
use node_core::NodeProfile;
use node_settings::{Settings, read_settings};
use std::alloc::Global;
use std::io::Write;
use std::process::ExitCode;
use std::rt::{Env, Files};
use std::{env, fs, io};

const USAGE: &str = "usage: book <settings file>; its book is beside it, of its name with .book";

fn main(rt: HostRuntime) -> ExitCode {
    match run(&rt) {
        Ok(()) => ExitCode::from(0),
        Err(end) => {
            let mut text = Vec::new(rt.alloc());
            if put_end(end, &mut text).is_ok() {
                let _told = push_all(&mut WriterSink::new(rt.stderr()), text.as_slice());
            }
            ExitCode::from(end.exit_number())
        }
    }
}

/// Why no whole log was written. The numbers are those of `node`.
#[derive(Clone, Copy)]
enum End {
    Usage,
    Settings,
    File,
    Log,
    Memory,
    Refused { at: u64 },
}

impl End {
    fn exit_number(self) -> u8 {
        match self {
            End::Usage => 2,
            End::Settings => 3,
            End::File => 4,
            End::Log => 5,
            End::Memory => 6,
            End::Refused { at: _ } => 10,
        }
    }
}

/// Why no whole log was written.
fn put_end(end: End, to: &mut Vec<u8>) -> io::Result<()> {
    match end {
        End::Usage => write!(to, "{USAGE}\n"),
        End::Settings => write!(to, "book: the settings are refused; bin/node says which\n"),
        End::File => write!(
            to,
            "book: can't read the settings file, or the book beside it\n"
        ),
        End::Log => write!(to, "book: can't write the log\n"),
        End::Memory => write!(to, "book: out of memory\n"),
        End::Refused { at } => write!(to, "book: the book is refused at byte {at}\n"),
    }
}

fn run<R: Env + Files + Print + AllocGlobal>(rt: &R) -> Result<(), End> {
    let path = word_of(rt)?;
    let settings = settings_of(rt, path.as_str())?;
    let drives = settings.panel.drives;
    let profile = profile_of(rt.alloc(), &settings);
    drop(settings);
    let profile = profile?;
    match book_of(rt, path) {
        Ok(book) => {
            let mut log = WriterSink::new(io::writer(rt));
            told(tell_book(rt.alloc(), profile, drives, book.as_slice(), &mut log))
        }
        Err(end) => {
            drop(profile);
            Err(end)
        }
    }
}

/// The one word behind the program's name.
fn word_of<R: Env + AllocGlobal>(rt: &R) -> Result<String, End> {
    let Ok(words) = env::args(rt) else {
        return Err(End::Usage);
    };
    let mut words = words.skip(1);
    match (words.next(), words.next()) {
        (Some(word), None) => String::from_str(rt.alloc(), word.as_str()).map_err(|_| End::Memory),
        _ => Err(End::Usage),
    }
}

fn settings_of<R: Files + AllocGlobal>(rt: &R, path: &str) -> Result<Settings, End> {
    let Ok(bytes) = fs::read(rt, path) else {
        return Err(End::File);
    };
    match read_settings(rt.alloc(), bytes.as_slice()) {
        Ok(settings) => Ok(settings),
        Err(_) => Err(End::Settings),
    }
}

fn book_of<R: Files + AllocGlobal>(rt: &R, mut path: String) -> Result<Vec<u8>, End> {
    if path.push_str(".book").is_err() {
        return Err(End::Memory);
    }
    match fs::read(rt, path.as_str()) {
        Ok(bytes) => Ok(bytes),
        Err(_) => Err(End::File),
    }
}

/// The machine of these settings. Those that were read are within its bounds.
fn profile_of(alloc: Global, settings: &Settings) -> Result<NodeProfile, End>
    ensures least { IfOk result (λ profile. 1 ≤ profile.capacity) }
    ensures most { IfOk result (λ profile. profile.capacity ≤ 1024) }
    ensures used { IfOk result (λ profile. profile.used < 2 ^ 48) }
{
    let capacity = settings.places.capacity;
    let used = settings.places.used;
    if capacity < 1 || capacity > 1024 || used >= 281_474_976_710_656 {
        return Err(End::Settings);
    }
    match settings.identity.machine_id.copy(alloc) {
        Ok(machine) => Ok(NodeProfile {
            number: settings.identity.number,
            lane: settings.identity.lane,
            machine,
            capacity,
            used,
            bridge: settings.bridge,
        }),
        Err(_) => Err(End::Memory),
    }
}

fn told(answer: Result<u64, LogError>) -> Result<(), End> {
    match answer {
        Ok(_) => Ok(()),
        Err(LogError::Bad { at, why: _ }) => Err(End::Refused { at }),
        Err(LogError::Fault) => Err(End::Log),
        Err(LogError::Memory) => Err(End::Memory),
    }
}
