use board_record::{SubBoard, SubBoards, SubError};
use line_base::{Quality, Text};
use std::alloc::{AllocError, Global};

/// What the last of the words answers, done in order on an empty list, and how many sub boards there
/// are after them. A word pushes so many sub boards one after the other: `pos:COUNT:POS` without a
/// barcode at a place, `x:COUNT:LENGTH` and `quote:COUNT:LENGTH` at place 1 with a barcode of so many
/// `x` or `"`. The word `copy` tells whether a copy is equal.
pub fn answer(alloc: Global, words: &str) -> Result<String, AllocError> {
    let mut subs = SubBoards::new();
    let said = after(alloc, &mut subs, words);
    drop(subs);
    said
}

fn after(alloc: Global, subs: &mut SubBoards, words: &str) -> Result<String, AllocError> {
    let mut said = "nothing";
    for word in words.split(' ') {
        said = step(alloc, subs, word)?;
    }
    let count = subs.list().len();
    format!(in alloc; "{said}, {count}")
}

fn step(alloc: Global, subs: &mut SubBoards, word: &str) -> Result<&'static str, AllocError> {
    let Some((what, numbers)) = word.split_once(':') else {
        return copied(subs);
    };
    let Some((count, number)) = numbers.split_once(':') else {
        return Ok("no case");
    };
    push_each(alloc, subs, what, number_of(count), number_of(number))
}

fn number_of(word: &str) -> u32 {
    word.parse().unwrap_or(0)
}

/// Pushes so many, until one isn't taken.
fn push_each(
    alloc: Global,
    subs: &mut SubBoards,
    what: &str,
    count: u32,
    number: u32,
) -> Result<&'static str, AllocError> {
    for _ in 0..count {
        let sub = made(alloc, what, number)?;
        match subs.push(alloc, sub) {
            Ok(()) => {}
            Err(SubError::Full) => return Ok("full"),
            Err(SubError::Memory) => return Err(AllocError),
        }
    }
    Ok("pushed")
}

fn made(alloc: Global, what: &str, number: u32) -> Result<SubBoard, AllocError> {
    let state = Quality::Good;
    if what == "pos" {
        return Ok(SubBoard {
            pos: number,
            barcode: None,
            state,
        });
    }
    let byte = if what == "quote" { b'"' } else { b'x' };
    Ok(SubBoard {
        pos: 1,
        barcode: Some(repeated(alloc, byte, number)?),
        state,
    })
}

fn repeated(alloc: Global, byte: u8, length: u32) -> Result<Text, AllocError> {
    let bytes = filled(alloc, byte, length)?;
    match Text::read(alloc, bytes.as_slice()) {
        Ok(text) => Ok(text),
        Err(_) => Err(AllocError),
    }
}

fn filled(alloc: Global, byte: u8, length: u32) -> Result<Vec<u8>, AllocError> {
    let mut bytes = Vec::new(alloc);
    for _ in 0..length {
        bytes.push(byte)?;
    }
    Ok(bytes)
}

fn copied(subs: &SubBoards) -> Result<&'static str, AllocError> {
    match subs.copy() {
        Ok(copy) => {
            let said = compared(&copy, subs);
            drop(copy);
            Ok(said)
        }
        Err(_) => Err(AllocError),
    }
}

fn compared(copy: &SubBoards, subs: &SubBoards) -> &'static str {
    if copy == subs { "equal" } else { "another" }
}
