use std::alloc::{AllocError, Global};

/// How a case spells its bytes.
#[derive(Clone, Copy)]
pub enum Spelled<'a> {
    AsIs(&'a str),
    Hex(&'a str),
    Long(&'a str),
}

impl<'a> Spelled<'a> {
    /// What the first word of a case says of the bytes, and the rest of that word.
    pub fn of(what: &'a str) -> Spelled<'a> {
        if let Some(what) = what.strip_suffix("-hex") {
            return Spelled::Hex(what);
        }
        if let Some(what) = what.strip_suffix("-long") {
            return Spelled::Long(what);
        }
        Spelled::AsIs(what)
    }
}

/// The bytes of hexadecimal digits.
pub fn of_hex(alloc: Global, digits: &str) -> Result<Option<Vec<u8>>, AllocError> {
    match hex::decode(alloc, digits) {
        Ok(bytes) => Ok(Some(bytes)),
        Err(hex::FromHexError::OutOfMemory) => Err(AllocError),
        Err(_) => Ok(None),
    }
}

/// So many `x`.
pub fn of_length(alloc: Global, length: &str) -> Result<Vec<u8>, AllocError> {
    let length = length.parse::<u16>().unwrap_or(0);
    Ok(vec![in alloc; b'x'; usize::from(length)]?)
}
