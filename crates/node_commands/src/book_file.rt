ghost use Rattle.std.specs.Prelude.{◌≡◌, ◌≤◌, IfOk, Err, length};
ghost use Rattle.node_commands.specs.Books.{HasBookCause, IsLarge, ReadsBook};
ghost use Rattle.node_commands.specs.declared.book_file.BookError.TheVariants as errors;
ghost use Rattle.node_run.specs.Booked.{most_book};

use book_keeper::Keeper;
use line_outside::Pull;
use node_run::MOST_BOOK_BYTES;
use std::alloc::Global;

/// Why a book could not be read.
#[derive(Clone, Copy, Debug, PartialEq, Eq)]
pub enum BookError {
    /// The book failed.
    Fault,
    /// It has more bytes than a book may have.
    Full,
    Memory,
}

/// How many bytes are pulled at a time.
const PIECE_BYTES: usize = 4096;

/// The bytes of a book, from its start.
pub fn read_book<B: Keeper>(alloc: Global, book: &mut B) -> Result<Vec<u8>, BookError>
    ensures reads { IfOk result (λ bytes. ReadsBook (B.left book.old) bytes.items) }
    ensures within { IfOk result (λ bytes. length bytes.items ≤ most_book) }
    ensures full { result ≡ Err errors.Full → IsLarge (B.left book.old) }
    ensures stays { B.contents book.new ≡ B.contents book.old }
    ensures cause { HasBookCause result (B.faults book.old) (B.faults book.new) }
{
    let mut room = [0u8; PIECE_BYTES];
    let mut bytes = Vec::new(alloc);
    while bytes.len() as u64 <= MOST_BOOK_BYTES {
        match book.pull(&mut room) {
            Pull::Bytes(count) => {
                if bytes.extend_from_slice(&room[..count]).is_err() {
                    return Err(BookError::Memory);
                }
            }
            Pull::End => return Ok(bytes),
            Pull::Failed => return Err(BookError::Fault),
        }
    }
    Err(BookError::Full)
}
