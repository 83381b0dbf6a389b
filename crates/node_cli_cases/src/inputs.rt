//! What a run is given, and how much is told of it.

use crate::calls::written;
use case_text::spell;
use line_base::{Memory, Word, Words};
use std::alloc::Global;

/// For how many calls, and how many bytes of them, ports tell.
pub const TOLD_CALLS: usize = 20_000;

pub const TOLD_BYTES: usize = 4_000_000;

/// How many bytes of the log are kept.
pub const LOG_BYTES: usize = 4_000_000;

/// The words of a command line, `-` for none.
pub fn words_of(alloc: Global, text: &str) -> Result<Words, Memory> {
    let mut words = Words::new(alloc);
    for word in text.split(' ') {
        if !word.is_empty() && word != "-" {
            words.push(Word::of(alloc, word.as_bytes())?)?;
        }
    }
    Ok(words)
}

/// The settings file: the lines that begin neither with `<` nor with `@`.
pub fn settings_of(alloc: Global, body: &str) -> Result<Vec<u8>, Memory> {
    let mut bytes = Vec::new(alloc);
    for line in body.lines() {
        if !line.starts_with("< ") && !line.starts_with("@ ") {
            spell(line, &mut bytes)?;
            written(bytes.push(b'\n'))?;
        }
    }
    Ok(bytes)
}
