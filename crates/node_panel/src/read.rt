ghost use Rattle.line_script.specs.Words.{Reads};
ghost use Rattle.node_panel.specs.Panel.{panel_line_of};

use crate::forms::asked_of;
use crate::line::PanelLine;
use line_script::words::{is_text, words_of};
use line_script::{LineError, LineWhy, MOST_LINE_BYTES};
use std::alloc::Global;

/// Reads one line of a panel, given without its line end.
///
/// Refuses it for the first reason that holds: more than 4,096 bytes, a byte that is neither a tab
/// nor printable ASCII, an unknown first word, a wrong count of words, and then, for the words
/// from the left, a bad number, side, id or word.
pub fn read_panel_line(alloc: Global, bytes: &[u8]) -> Result<PanelLine, LineError>
    ensures { Reads (panel_line_of bytes.now) result }
{
    if bytes.len() > MOST_LINE_BYTES {
        return Err(LineError::Refused(LineWhy::LongLine));
    }
    if !is_text(bytes) {
        return Err(LineError::Refused(LineWhy::NotText));
    }
    let words = match words_of(alloc, bytes) {
        Ok(words) => words,
        Err(_) => return Err(LineError::Memory),
    };
    match words.split_first() {
        None => Ok(PanelLine::Blank),
        Some((first, others)) => {
            if first.starts_with(b"#") {
                return Ok(PanelLine::Blank);
            }
            asked_of(alloc, first, others)
        }
    }
}
