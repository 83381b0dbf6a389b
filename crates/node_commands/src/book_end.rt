ghost use Rattle.std.specs.Prelude.{◌≡◌, Bool, IfOk, true};
ghost use Rattle.node_commands.specs.BookEnds.{TellsBookEnd, TellsLine, book_why_text, refused_book_text};

use crate::book_status::BookStatus;
use crate::end::{EndError, tell_end};
use line_base::Memory;
use line_outside::{Pushed, Sink, push_all};
use restart_book::BookWhy;
use std::alloc::Global;
use std::io::Write;

/// Writes why the program ends, and what is to be done then, in one line. It writes nothing where
/// the panel ended the run.
pub fn tell_book_end<K: Sink>(alloc: Global, status: BookStatus, to: &mut K) -> Result<(), EndError>
    ensures { TellsBookEnd status result (K.contents to.old) (K.contents to.new) (K.faults to.old)
        (K.faults to.new) }
{
    match status {
        BookStatus::Node(status) => tell_end(alloc, status, to),
        BookStatus::BookFault => tell_line(
            b"node: can't read or write the book; give its disk room, and start again\n",
            to,
        ),
        BookStatus::BookRefused { at, why } => tell_refused_book(alloc, at, why, to),
        BookStatus::BookFull => tell_line(
            b"node: the book is full; keep it apart, and begin a new one\n",
            to,
        ),
        BookStatus::BookBusy => tell_line(
            b"node: another process has the book; end that one first, or give another settings file\n",
            to,
        ),
    }
}

fn tell_line<K: Sink>(text: &[u8], to: &mut K) -> Result<(), EndError>
    ensures { (names : Bool) → TellsLine text.now names result (K.contents to.old)
        (K.contents to.new) (K.faults to.old) (K.faults to.new) }
{
    match push_all(to, text) {
        Pushed::Whole => Ok(()),
        Pushed::Failed => Err(EndError::Fault),
    }
}

fn tell_refused_book<K: Sink>(
    alloc: Global,
    at: u64,
    why: BookWhy,
    to: &mut K,
) -> Result<(), EndError>
    ensures { TellsLine (refused_book_text at why) true result (K.contents to.old)
        (K.contents to.new) (K.faults to.old) (K.faults to.new) }
{
    match refused_book_text(alloc, at, why) {
        Ok(text) => tell_line(text.as_slice(), to),
        Err(Memory) => Err(EndError::Memory),
    }
}

/// The line of a refused book.
fn refused_book_text(alloc: Global, at: u64, why: BookWhy) -> Result<Vec<u8>, Memory>
    ensures { IfOk result (λ text. text.items ≡ refused_book_text at why) }
{
    let why = book_why_text(why);
    let mut text = Vec::new(alloc);
    match write!(
        text,
        "node: the book is refused at byte {at}: {why}; keep it apart, and begin a new one\n"
    ) {
        Ok(()) => Ok(text),
        Err(_) => Err(Memory),
    }
}

fn book_why_text(why: BookWhy) -> &'static str
    ensures { result.now ≡ book_why_text why }
{
    match why {
        BookWhy::Spelling => "no entry",
        BookWhy::NotPossible => "an entry that can't be done then",
    }
}
