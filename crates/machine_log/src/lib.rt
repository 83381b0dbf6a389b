//! The log of one machine: the line of each of its acts, what each drive is, and what a machine
//! owns, read off the bytes of its log.
#![tactic(auto)]

mod drives;
mod proper;
mod texts;

pub use drives::Drives;
pub use proper::acts_are_proper;
pub use texts::{
    write_at_gap, write_drives, write_lines, write_log_text, write_news, write_no, write_refused,
    written,
};
