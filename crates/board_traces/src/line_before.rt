ghost use Rattle.std.specs.Prelude.{◌≡◌, ◌+◌, ◌<◌, [], ◌∷◌, IfNone, IfSome, length};
ghost use Rattle.std.specs.Str.Lines.{lines};
ghost use Rattle.board_traces.specs.Held.{is_reached, lines_before};

use crate::cut::{cut_line, without_return};

/// The next line of a log, after so many others, and what follows it; `None` at the end of the
/// log, and where the next is the line before which it is read.
pub fn next_before(rest: &[u8], done: u64, end: Option<u64>) -> Option<(&[u8], &[u8])>
    ensures next { IfSome result (λ parts. lines_before end done (lines rest.now)
        ≡ parts.0.now ∷ lines_before end (done + 1) (lines parts.1.now)) }
    ensures shorter { IfSome result (λ parts. length parts.1.now < length rest.now) }
    ensures last { IfNone result (lines_before end done (lines rest.now) ≡ []) }
{
    if is_reached(end, done) {
        return None;
    }
    if let Some((line, others)) = cut_line(rest) {
        return Some((without_return(line), others));
    }
    if rest.is_empty() {
        return None;
    }
    // a last line without its end
    Some((rest, &[]))
}

/// Whether the line after so many others is that before which a log is read.
fn is_reached(end: Option<u64>, done: u64) -> bool
    ensures { result ≡ is_reached end done }
{
    match end {
        Some(line) => line.saturating_sub(1) <= done,
        None => false,
    }
}
