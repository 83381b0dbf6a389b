ghost use Rattle.std.specs.Prelude.{◌≡◌, ◌≤◌, IfSome, None, length};

use crate::sink::{Push, Sink};
use std::io::{ErrorKind, Write};

/// How often a push begins anew where a signal broke in.
const INTERRUPTIONS: u32 = 1000;

/// A sink over a writer of the host's. It tells nothing of its bytes.
///
/// A writer that takes nothing of a piece is a fault.
#[derive(Drop)]
pub struct WriterSink<W: Write> {
    writer: W,
    faults: u64,
}

impl<W: Write> WriterSink<W> {
    /// A sink over this writer, with no faults yet.
    pub fn new(writer: W) -> WriterSink<W>
        ensures { result.faults ≡ 0 }
    {
        WriterSink { writer, faults: 0 }
    }
}

impl<W: Write> Sink for WriterSink<W> {
    ghost contents = { λ _. None };

    ghost faults = { λ sink. sink.faults };

    fn push(&mut self, piece: &[u8]) -> Push {
        match write_some(&mut self.writer, piece) {
            Some(0) | None => {
                self.faults = self.faults.saturating_add(1);
                Push::Failed
            }
            Some(count) => Push::Took(count),
        }
    }
}

/// What one write took, or `None` where the writer failed.
fn write_some<W: Write>(writer: &mut W, piece: &[u8]) -> Option<usize>
    ensures { IfSome result (λ count. count ≤ length piece.now) }
{
    for _ in 0..INTERRUPTIONS {
        match writer.write(piece) {
            Ok(count) => return Some(count),
            Err(error) if error.kind() == ErrorKind::Interrupted => {}
            Err(_) => return None,
        }
    }
    None
}
