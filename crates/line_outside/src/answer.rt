ghost use Rattle.std.specs.Prelude.{◌≡◌, IfOk};

use crate::way::Way;
use line_base::{Memory, Word};
use std::alloc::Global;

/// What a poll finds, with its bytes.
#[derive(Debug, PartialEq, Eq, Drop)]
pub enum GotBytes {
    /// A connection stands now.
    Arrived,
    /// Another connection came while one stands.
    Second,
    /// These bytes.
    Bytes(Word),
    /// Nothing.
    NotYet,
    /// The connection is closed.
    Closed,
    /// The way failed.
    Failed,
}

/// One answer that ports in memory have in store: what a poll of this way finds.
#[derive(Debug, PartialEq, Eq, Drop)]
pub struct PortAnswer {
    pub way: Way,
    pub got: GotBytes,
}

impl GotBytes {
    /// An equal one. `Memory` where there is none for its bytes.
    pub fn copy(&self, alloc: Global) -> Result<GotBytes, Memory>
        ensures { IfOk result (λ copy. copy ≡ self.now) }
    {
        match self {
            GotBytes::Arrived => Ok(GotBytes::Arrived),
            GotBytes::Second => Ok(GotBytes::Second),
            GotBytes::Bytes(word) => {
                let word = Word::of(alloc, word.bytes())?;
                Ok(GotBytes::Bytes(word))
            }
            GotBytes::NotYet => Ok(GotBytes::NotYet),
            GotBytes::Closed => Ok(GotBytes::Closed),
            GotBytes::Failed => Ok(GotBytes::Failed),
        }
    }
}
