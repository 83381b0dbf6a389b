//! What keeps the entries of a machine's steps: a book in memory, and one in a file.
#![tactic(auto)]

mod file_book;
mod keeper;
mod memory_book;

pub use file_book::{FileBook, open_book};
pub use keeper::{Keeper, Kept2};
pub use memory_book::MemoryBook;
