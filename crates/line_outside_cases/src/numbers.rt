ghost use Rattle.std.specs.Prelude.{◌<◌};

use std::alloc::{AllocError, Global};

/// The numbers of calls, parted by commas. What is no number is none.
pub fn calls_of(alloc: Global, words: &str) -> Result<Vec<u64>, AllocError> {
    let mut calls = Vec::new(alloc);
    for word in words.split(',') {
        if let Some(call) = read(word) {
            calls.push(call)?;
        }
    }
    Ok(calls)
}

fn read(word: &str) -> Option<u64> {
    word.parse().ok()
}

/// What is no number is 0.
pub fn number_of(word: &str) -> usize {
    read(word).unwrap_or(0) as usize
}

/// How many bytes a room has.
pub fn room_of(word: &str) -> usize
    ensures { 0 < result }
{
    number_of(word).max(1)
}
