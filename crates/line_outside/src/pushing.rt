ghost use Rattle.std.specs.Prelude.{◌≤◌};
ghost use Rattle.line_outside.specs.Sink.{PushesAll};

use crate::sink::{Push, Sink};

/// What became of a whole text pushed into a sink.
#[derive(Clone, Copy, Debug, PartialEq, Eq)]
pub enum Pushed {
    /// All of it was appended.
    Whole,
    /// The sink failed. A front of it was appended.
    Failed,
}

/// Pushes all of the bytes, piece by piece. `Failed` only where the sink's count of faults rose in
/// this call, or stood at its last value.
pub fn push_all<K: Sink>(sink: &mut K, bytes: &[u8]) -> Pushed
    ensures { PushesAll (K.contents sink.old) (K.contents sink.new) (K.faults sink.old)
        (K.faults sink.new) bytes.now result }
{
    let mut at = 0;
    while at < bytes.len() {
        match sink.push(&bytes[at..]) {
            Push::Took(count) => at += count,
            Push::Failed => return Pushed::Failed,
        }
    }
    Pushed::Whole
}
