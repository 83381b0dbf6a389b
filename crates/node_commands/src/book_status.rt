ghost use Rattle.std.specs.Prelude.{◌≡◌};
ghost use Rattle.node_commands.specs.Books.{book_exit};

use node_run::NodeStatus;
use restart_book::BookWhy;

/// How the program `node` ends, which keeps a book of its machine's steps.
#[derive(Clone, Copy, Debug, PartialEq, Eq)]
pub enum BookStatus {
    /// As without a book.
    Node(NodeStatus),
    /// The book could not be opened, read, cut or written.
    BookFault,
    /// The machine can't begin again from the book: what begins at this byte is no entry, or there is
    /// a reason against it then.
    BookRefused { at: u64, why: BookWhy },
    /// The book has more than 1,073,741,824 bytes, or would have with its next entry.
    BookFull,
    /// Another process has the book. Nothing was done.
    BookBusy,
}

impl BookStatus {
    /// The number with which the program ends.
    pub fn exit_number(self) -> u8
        ensures { result ≡ book_exit self }
    {
        match self {
            BookStatus::Node(status) => status.exit_number(),
            BookStatus::BookFault => 9,
            BookStatus::BookRefused { at: _, why: _ } => 10,
            BookStatus::BookFull => 11,
            BookStatus::BookBusy => 12,
        }
    }
}
