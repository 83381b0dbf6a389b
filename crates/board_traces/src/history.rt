ghost use Rattle.std.specs.Prelude.{◌≡◌, ◌++◌, IfOk, OnOk, codes, length, option_to_list};
ghost use Rattle.std.specs.Fmt.{decimal};
ghost use Rattle.std.specs.Str.Lines.{lines};
ghost use Rattle.standings.specs.Marks.{has_id};
ghost use Rattle.standings.specs.Ledger.{ids_named};
ghost use Rattle.line_check.specs.LogLine.{said_by};
ghost use Rattle.board_traces.specs.Held.{lines_before};
ghost use Rattle.board_traces.specs.Reading.{deed_said};
ghost use Rattle.board_traces.specs.Trace.{deeds_text, names, told_where};

use crate::deed_line::deed_of_line;
use crate::line_before::next_before;
use board_record::BoardId;
use line_base::Memory;
use standings::Deed;
use std::io::Write;

/// Appends each line of a log before a line of it, or of all, whose deed names a board, with its
/// number, and answers how many lines those are.
pub fn write_deeds(
    id: BoardId,
    log: &[u8],
    end: Option<u64>,
    to: &mut Vec<u8>,
) -> Result<u64, Memory>
    ensures text { OnOk result (to.new.items
        ≡ to.old.items ++ deeds_text id 0 (lines_before end 0 (lines log.now))) }
    ensures counted { IfOk result
        (λ count. count ≡ length (lines_before end 0 (lines log.now))) }
{
    let mut done: u64 = 0;
    let mut rest = log;
    while let Some((line, others)) = next_before(rest, done, end) {
        done += 1;
        write_where(names(id, deed_of_line(line)), done, line, to)?;
        rest = others;
    }
    Ok(done)
}

/// Whether a deed names a board.
fn names(id: BoardId, deed: Option<Deed>) -> bool
    ensures { result ≡ names id deed }
{
    match deed {
        Some(deed) => is_named(id, &deed),
        None => false,
    }
}

fn is_named(id: BoardId, deed: &Deed) -> bool
    ensures { result ≡ has_id id (ids_named deed.now) }
{
    let beside = deed.named_beside();
    let named = deed.named();
    is_one(id, beside) || named == id
}

fn is_one(id: BoardId, other: Option<BoardId>) -> bool
    ensures { result ≡ has_id id (option_to_list other) }
{
    match other {
        Some(other) => other == id,
        None => false,
    }
}

/// Appends a line with its number, where it is to be told.
fn write_where(told: bool, number: u64, line: &[u8], to: &mut Vec<u8>) -> Result<(), Memory>
    ensures { OnOk result (to.new.items ≡ to.old.items ++ told_where told number line.now) }
{
    if !told {
        return Ok(());
    }
    write_number(number, to)?;
    to.extend_from_slice(line)?;
    to.push(b'\n')?;
    Ok(())
}

fn write_number(number: u64, to: &mut Vec<u8>) -> Result<(), Memory>
    ensures { OnOk result (to.new.items ≡ to.old.items ++ decimal number ++ codes " ") }
{
    write!(to, "{number} ").map_err(|_| Memory)
}
