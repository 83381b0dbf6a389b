ghost use Rattle.std.specs.Prelude.{◌≡◌, ◌≤◌, length, take};
ghost use Rattle.log_verdict.specs.Reading.{Ends, HasReadCause, log_error};

use crate::log_reader::LogReader;
use line_check::{CheckError, CheckWhy, Counts};
use line_outside::{Pull, Source};
use std::alloc::Global;

/// How many bytes of a log are pulled at a time.
const PIECE_BYTES: usize = 65_536;

/// Why a log has no counts.
#[derive(Clone, Copy, Debug, PartialEq, Eq)]
pub enum LogError {
    /// This reason is against it, at this line.
    No { line: u64, why: CheckWhy },
    /// The source failed.
    ReadFault,
    /// Memory was wanting.
    Memory,
}

/// Reads the log that the source has: its counts where nothing is against it.
pub fn read_log<S: Source>(alloc: Global, log: &mut S) -> Result<Counts, LogError>
    ensures ends { Ends (S.left log.old) (S.left log.new) result }
    ensures cause { HasReadCause result (S.faults log.old) (S.faults log.new) }
{
    let mut room = match vec![in alloc; 0u8; PIECE_BYTES] {
        Ok(room) => room,
        Err(_) => return Err(LogError::Memory),
    };
    let mut reader = LogReader::new(alloc);
    loop {
        match log.pull(room.as_mut_slice()) {
            Pull::Bytes(count) => {
                if let Err(error) = reader.take_piece(front(room.as_slice(), count)) {
                    return Err(log_error(error));
                }
            }
            Pull::End => match reader.finish() {
                Ok(counts) => return Ok(counts),
                Err(error) => return Err(log_error(error)),
            },
            Pull::Failed => return Err(LogError::ReadFault),
        }
    }
}

/// The first bytes of a room.
fn front(room: &[u8], count: usize) -> &[u8]
    requires { count ≤ length room.now }
    ensures { result.now ≡ take count room.now }
{
    &room[..count]
}

fn log_error(error: CheckError) -> LogError
    ensures { result ≡ log_error error }
{
    match error {
        CheckError::No { line, why } => LogError::No { line, why },
        CheckError::Memory => LogError::Memory,
    }
}
