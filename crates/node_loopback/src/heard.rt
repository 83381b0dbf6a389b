use std::alloc::{AllocError, Global};
use std::str;

/// What came on a way, and how much of it was looked for.
#[derive(Drop)]
pub struct Heard {
    text: Vec<u8>,
    seen: usize,
}

impl Heard {
    pub fn new(alloc: Global) -> Heard {
        Heard {
            text: Vec::new(alloc),
            seen: 0,
        }
    }

    pub fn take(&mut self, piece: &[u8]) -> Result<(), AllocError> {
        self.text.extend_from_slice(piece)?;
        Ok(())
    }

    /// Whether these words came behind those that were found before. What stands before them then
    /// counts as seen.
    pub fn finds(&mut self, words: &str) -> bool {
        let rest = self.text.get(self.seen..).unwrap_or(b"");
        match text_of(rest).split_once(words) {
            Some((_, behind)) => {
                self.seen = self.text.len().saturating_sub(behind.len());
                true
            }
            None => false,
        }
    }

    /// Whether what was seen has these words, and `on` behind the last of them.
    pub fn was_last_on(&self, words: &str) -> bool {
        let seen = self.text.get(..self.seen).unwrap_or(b"");
        match text_of(seen).rsplit_once(words) {
            Some((_, behind)) => behind.starts_with("on"),
            None => false,
        }
    }
}

fn text_of(bytes: &[u8]) -> &str {
    str::from_utf8(bytes).unwrap_or("")
}
