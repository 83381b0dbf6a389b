//! What the program `node` does with its word, its settings file and its book, and what is said of its
//! end.
#![tactic(auto)]

mod book_call;
mod book_end;
mod book_file;
mod book_status;
mod end;
mod main_call;
mod settings_file;
mod taking;

pub use book_call::run_with_book;
pub use book_end::tell_book_end;
pub use book_status::BookStatus;
pub use end::{EndError, tell_end};
pub use main_call::run_named;
pub use taking::{Guarded, Taken};
