ghost use Rattle.std.specs.Prelude.{IfOk};
ghost use Rattle.node_commands.specs.Command.{ReadsFile, HasFileCause};

use line_outside::{Pull, Source};
use node_settings::MOST_SETTINGS_BYTES;
use std::alloc::Global;

/// Why a settings file could not be read.
#[derive(Clone, Copy, Debug, PartialEq, Eq)]
pub enum FileError {
    /// The source failed.
    Fault,
    Memory,
}

/// How many bytes are pulled at a time.
const PIECE_BYTES: usize = 4096;

/// The bytes of a settings file, or of one that is too large more than it may have.
pub fn read_file<S: Source>(alloc: Global, file: &mut S) -> Result<Vec<u8>, FileError>
    ensures reads { IfOk result (λ bytes. ReadsFile (S.left file.old) bytes.items) }
    ensures cause { HasFileCause result (S.faults file.old) (S.faults file.new) }
{
    let mut room = [0u8; PIECE_BYTES];
    let mut bytes = Vec::new(alloc);
    while bytes.len() <= MOST_SETTINGS_BYTES {
        match file.pull(&mut room) {
            Pull::Bytes(count) => {
                if bytes.extend_from_slice(&room[..count]).is_err() {
                    return Err(FileError::Memory);
                }
            }
            Pull::End => return Ok(bytes),
            Pull::Failed => return Err(FileError::Fault),
        }
    }
    Ok(bytes)
}
