//! The machine that begins again from its restart book: what it was given in each step, written
//! before anything of that step went out.
#![tactic(auto)]

pub mod laws;
mod replay;
mod resuming;

pub use resuming::{BookWhy, ResumeError, Resumed, resume};
