ghost use Rattle.std.specs.Prelude.{◌<◌, ◌^◌};

use board_record::{BadId, BoardId, IdMaker, IdsUsedUp};
use std::alloc::{AllocError, Global};
use std::str;

/// The ids that a machine can have made are fewer.
const TOO_MANY_IDS: u64 = 0x1_0000_0000_0000;

/// What an id is read as, how it is written, or which id a machine makes after so many.
pub fn answer(alloc: Global, what: &str, words: &str) -> Result<String, AllocError> {
    if what == "id" {
        return number(alloc, words.as_bytes());
    }
    if what == "written" {
        return written(alloc, words.as_bytes());
    }
    if what == "made" {
        return made(alloc, words);
    }
    String::from_str(alloc, "no case")
}

fn number(alloc: Global, bytes: &[u8]) -> Result<String, AllocError> {
    match BoardId::read(bytes) {
        Ok(id) => format!(in alloc; "{:x}", id.number()),
        Err(BadId) => String::from_str(alloc, "not an identifier"),
    }
}

fn written(alloc: Global, bytes: &[u8]) -> Result<String, AllocError> {
    match BoardId::read(bytes) {
        Ok(id) => text_of(alloc, id),
        Err(BadId) => String::from_str(alloc, "not an identifier"),
    }
}

fn text_of(alloc: Global, id: BoardId) -> Result<String, AllocError> {
    let mut to = Vec::new(alloc);
    if id.write(&mut to).is_err() {
        return Err(AllocError);
    }
    match str::from_utf8(to.as_slice()) {
        Ok(text) => String::from_str(alloc, text),
        Err(_) => String::from_str(alloc, "no text"),
    }
}

/// The words are the number of the machine and how many ids it has made.
fn made(alloc: Global, words: &str) -> Result<String, AllocError> {
    match maker_of(words) {
        Some((machine, used)) if used < TOO_MANY_IDS => next_of(alloc, machine, used),
        _ => String::from_str(alloc, "no case"),
    }
}

fn maker_of(words: &str) -> Option<(u32, u64)> {
    let (machine, used) = words.split_once(' ')?;
    Some((machine.parse().ok()?, used.parse().ok()?))
}

fn next_of(alloc: Global, machine: u32, used: u64) -> Result<String, AllocError>
    requires { used < 2 ^ 48 }
{
    let mut maker = IdMaker::new(machine, used);
    let next = maker.next();
    let used = maker.used();
    match next {
        Ok(id) => format!(in alloc; "{id}, {used} made"),
        Err(IdsUsedUp) => format!(in alloc; "ids used up, {used} made"),
    }
}
