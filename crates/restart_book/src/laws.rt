//! The laws of books.

ghost use Rattle.restart_book.specs.Exactly.{EachBookHasOneAnswer};
ghost use Rattle.restart_book.specs.Kept.{KeptBooksAreResumed};

/// A book leads to one machine with all its whole entries, or is bad at one place for one reason.
pub fn a_book_has_one_answer()
    ensures { EachBookHasOneAnswer }
{
    node_core::laws::one_meaning();
}

/// A book that was resumed, cut to its whole entries, and got the entries of the steps that were
/// made from there, is resumed where they led: so a machine that stops at any entry begins again
/// behind the steps that were kept.
pub fn a_kept_book_is_resumed()
    ensures { KeptBooksAreResumed }
{}
