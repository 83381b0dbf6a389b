ghost use Rattle.std.specs.Prelude.{◌<◌};

use crate::host::Host;
use crate::numbers::{calls_of, room_of};
use crate::parts::{part, two_of};
use line_outside::{MemorySource, Pull, ReaderSource, Source, SteadySource};
use std::alloc::{AllocError, Global};
use std::str;

/// The calls that fail, the bytes, and the rooms of the pulls.
pub fn memory(alloc: Global, asked: &str) -> Result<String, AllocError> {
    match two_of(asked) {
        Some((failing, asked)) => {
            let failing = calls_of(alloc, failing)?;
            failing_at(alloc, failing.as_slice(), asked)
        }
        None => String::from_str(alloc, "no case"),
    }
}

fn failing_at(alloc: Global, failing: &[u64], asked: &str) -> Result<String, AllocError> {
    let (bytes, rooms) = match two_of(asked) {
        Some(parts) => parts,
        None => return String::from_str(alloc, "no case"),
    };
    match MemorySource::new(alloc, bytes.as_bytes(), failing) {
        Ok(mut source) => {
            let told = pulls(alloc, &mut source, rooms);
            drop(source);
            told
        }
        Err(_) => Err(AllocError),
    }
}

/// The bytes, and the rooms of the pulls.
pub fn steady(alloc: Global, asked: &str) -> Result<String, AllocError> {
    let (bytes, rooms) = match two_of(asked) {
        Some(parts) => parts,
        None => return String::from_str(alloc, "no case"),
    };
    match SteadySource::new(alloc, bytes.as_bytes()) {
        Ok(mut source) => {
            let told = pulls(alloc, &mut source, rooms);
            drop(source);
            told
        }
        Err(_) => Err(AllocError),
    }
}

/// The rooms of the pulls of a reader of the host's.
pub fn reader(alloc: Global, rooms: &str) -> Result<String, AllocError> {
    let mut source = ReaderSource::new(Host::new(alloc));
    let told = pulls(alloc, &mut source, rooms);
    drop(source);
    told
}

fn pulls<S: Source>(alloc: Global, source: &mut S, rooms: &str) -> Result<String, AllocError> {
    let mut told = String::new(alloc);
    for room in rooms.split(' ') {
        part(&mut told)?;
        say_pull(alloc, source, room_of(room), &mut told)?;
    }
    Ok(told)
}

/// What a pull answers, and the room after it, which was full of points.
fn say_pull<S: Source>(
    alloc: Global,
    source: &mut S,
    room: usize,
    told: &mut String,
) -> Result<(), AllocError>
    requires { 0 < room }
{
    let mut room = vec![in alloc; b'.'; room]?;
    let pull = source.pull(room.as_mut_slice());
    say_pulled(pull, told)?;
    told.push_str(" ")?;
    told.push_str(str::from_utf8(room.as_slice()).unwrap_or("no text"))
}

fn say_pulled(pull: Pull, told: &mut String) -> Result<(), AllocError> {
    match pull {
        Pull::Bytes(count) => write!(told, "{count}"),
        Pull::End => told.push_str("end"),
        Pull::Failed => told.push_str("failed"),
    }
}
