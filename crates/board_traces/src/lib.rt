//! What became of each board that a merged log tells of.
//!
//! For a reader: a board's *course* is where its deeds so far have brought it (specs/Course); the
//! courses of all boards are a fold over the deeds of a log's lines (specs/Courses); specs/Trace
//! says the whole text that is written of a log, with specs/Texts for its lines. src/trace.rt does
//! it; src/deed_line.rt reads the deed of a line.
#![tactic(auto)]

mod board;
mod boards;
mod change;
mod cut;
mod deed_line;
mod history;
mod kind;
pub mod laws;
mod line_before;
mod texts;
mod trace;
mod way;

pub use trace::{Verdict, trace_board, trace_log};
