//! The check of a merged log from its bytes to its verdict.
//!
//! For a reader: specs/Verdict says what a log's bytes are and what is written of them,
//! src/verdict.rt does it; below it src/reading.rt reads the log to its end, and src/log_reader.rt
//! takes it piece by piece.
#![tactic(auto)]

mod checked;
mod line_ends;
mod log_reader;
mod reading;
mod verdict;

pub use checked::Checked;
pub use verdict::check_log;
