ghost use Rattle.std.specs.Prelude.{◌≡◌, ◌≤◌, IfSome, None, length};

use crate::source::{Pull, Source};
use std::io::{ErrorKind, Read};

/// How often a pull begins anew where a signal broke in.
const INTERRUPTIONS: u32 = 1000;

/// A source over a reader of the host's. It tells nothing of its bytes.
#[derive(Drop)]
pub struct ReaderSource<R: Read> {
    reader: R,
    faults: u64,
}

impl<R: Read> ReaderSource<R> {
    /// A source over this reader, with no faults yet.
    pub fn new(reader: R) -> ReaderSource<R>
        ensures { result.faults ≡ 0 }
    {
        ReaderSource { reader, faults: 0 }
    }
}

impl<R: Read> Source for ReaderSource<R> {
    ghost left = { λ _. None };

    ghost faults = { λ source. source.faults };

    fn pull(&mut self, room: &mut [u8]) -> Pull {
        match read_some(&mut self.reader, room) {
            Some(0) => Pull::End,
            Some(count) => Pull::Bytes(count),
            None => {
                self.faults = self.faults.saturating_add(1);
                Pull::Failed
            }
        }
    }
}

/// What one read took, or `None` where the reader failed.
fn read_some<R: Read>(reader: &mut R, room: &mut [u8]) -> Option<usize>
    ensures { IfSome result (λ count. count ≤ length room.old) }
{
    for _ in 0..INTERRUPTIONS {
        match reader.read(room) {
            Ok(count) => return Some(count),
            Err(error) if error.kind() == ErrorKind::Interrupted => {}
            Err(_) => return None,
        }
    }
    None
}
