ghost use Rattle.std.specs.Prelude.{◌≡◌, IfOk};
ghost use Rattle.line_script.specs.Ranges.{IsLaneWithin};
ghost use Rattle.line_script.specs.Words.{Reads};
ghost use Rattle.line_script.specs.Grammar.{read_of};
ghost use Rattle.line_script.specs.declared.line.LaneLine.TheVariants as lane_lines;
ghost use Rattle.line_script.specs.declared.line.ScriptLine.TheVariants as lines;

use crate::find::line_of;
use crate::line::{LaneLine, LineError, LineWhy, ScriptLine};
use crate::words::{is_text, words_of};
use std::alloc::Global;

/// The most bytes of a line, without its line end.
pub const MOST_LINE_BYTES: usize = 4096;

/// Reads one line, given without its line end.
///
/// Refuses it for the first reason that holds: more than 4,096 bytes, a byte that is no text, an
/// unknown first word, a wrong count of words, and then, for the words from the left, a bad
/// number, side, id or word. That a script has too many lines is for its caller to see.
pub fn read_line(alloc: Global, bytes: &[u8]) -> Result<LaneLine, LineError>
    ensures answer { Reads (read_of bytes.now) result }
    ensures within { IfOk result IsLaneWithin }
{
    if bytes.len() > MOST_LINE_BYTES {
        return Err(LineError::Refused(LineWhy::LongLine));
    }
    if !is_text(bytes) {
        return Err(LineError::Refused(LineWhy::NotText));
    }
    let words = match words_of(alloc, bytes) {
        Ok(words) => words,
        Err(_) => return Err(LineError::Memory),
    };
    match words.split_first() {
        None => Ok(blank()),
        Some((first, others)) => {
            if first.starts_with(b"#") {
                return Ok(blank());
            }
            line_of(alloc, first, others)
        }
    }
}

/// The line that does nothing.
fn blank() -> LaneLine
    ensures { result ≡ lane_lines.On 1 lines.Blank }
{
    LaneLine::On {
        lane: 1,
        line: ScriptLine::Blank,
    }
}
