//! How a checker answered the lines that it was given.

use line_check::CheckError;
use std::alloc::{AllocError, Global};

/// The answers so far.
#[derive(Drop)]
pub struct Given {
    count: u64,
    /// The first error, and at which line it was answered.
    first: Option<(u64, CheckError)>,
    /// The line behind it at which another answer came.
    other: Option<u64>,
}

impl Given {
    /// Before the first line.
    pub fn new() -> Given {
        Given {
            count: 0,
            first: None,
            other: None,
        }
    }

    /// Notes the answer to one more line.
    pub fn note(&mut self, answer: Result<(), CheckError>) {
        self.count = self.count.saturating_add(1);
        match (self.first, answer) {
            (None, Ok(())) => {}
            (None, Err(error)) => self.first = Some((self.count, error)),
            (Some((_, error)), again) => self.compare(Err(error), again),
        }
    }

    fn compare(&mut self, wanted: Result<(), CheckError>, again: Result<(), CheckError>) {
        if again != wanted && self.other.is_none() {
            self.other = Some(self.count);
        }
    }

    /// At which line the first error was answered, and whether it was answered again.
    pub fn told(&self, alloc: Global) -> Result<String, AllocError> {
        let count = self.count;
        match (self.other, self.first) {
            (Some(at), _) => format!(in alloc; "another answer at {at}"),
            (None, Some((at, _))) => format!(in alloc; "said at line {at} of {count}"),
            (None, None) => format!(in alloc; "at the end of {count}"),
        }
    }
}
