//! What a line of a script does, as it is told, and the report's text of it.
//!
//! For a reader, in this order: the happenings and the reasons why a line of the script does
//! nothing (src/happening), the numbers of the last line (src/summary), and the texts of both
//! (specs/Texts; src/texts, src/words, src/bytes).
#![tactic(auto)]

mod bytes;
mod happened;
mod happening;
mod lanes;
mod place;
mod shift;
mod summary;
mod texts;
mod words;

pub use happened::Happened;
pub use happening::{Happening, LaneHappening, Reason};
pub use lanes::{LaneHappened, LanePart, LaneParts, write_all};
pub use shift::tell_shift;
pub use summary::{Summary, write_summary};
pub use texts::{write_act, write_happening, write_on, write_reason};
pub use words::{quality_word, side_word};
