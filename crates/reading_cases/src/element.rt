//! Elements: the answer is the canonical text of the element that the bytes spell, or the reason
//! why they spell none. A case of `nest` and a number makes an element of so many levels, from the
//! innermost out.

use crate::nested::nested;
use crate::told::within;
use case_text::spell;
use hermes_element::{ChildError, Element, ElementError, read_element, write_element};
use std::alloc::Global;
use std::io;
use std::io::{ErrorKind, Write};

/// Appends an element that a case makes or spells.
pub fn tell(alloc: Global, case: &str, to: &mut Vec<u8>) -> io::Result<()> {
    match case.strip_prefix("nest ") {
        Some(levels) => tell_nested(alloc, levels, to),
        None => tell_spelled(alloc, case, to),
    }
}

/// Appends what the bytes say that a text spells.
fn tell_spelled(alloc: Global, text: &str, to: &mut Vec<u8>) -> io::Result<()> {
    let mut bytes = Vec::new(alloc);
    spell(text, &mut bytes)?;
    match read_element(alloc, bytes.as_slice()) {
        Ok(element) => tell_made(element, to),
        Err(ElementError::Memory) => Err(io::Error::from(ErrorKind::OutOfMemory)),
        Err(ElementError::Refused { at, why }) => write!(to, "refused: {why} at {at}"),
    }
}

/// Appends an element of so many levels.
fn tell_nested(alloc: Global, levels: &str, to: &mut Vec<u8>) -> io::Result<()> {
    match nested(alloc, levels.parse().unwrap_or(0)) {
        Ok(element) => tell_made(element, to),
        Err(ChildError::Deep) => write!(to, "refused: too deep"),
        Err(ChildError::Memory) => Err(io::Error::from(ErrorKind::OutOfMemory)),
    }
}

/// Appends the text of an element.
fn tell_made(element: Element, to: &mut Vec<u8>) -> io::Result<()> {
    let done = write_element(&element, to);
    // by name, since at the end of a scope all its parts are let go in this function's goals
    drop(element);
    within(done)
}
