ghost use Rattle.std.specs.Prelude.{◌≡◌, ◌++◌, OnOk};
ghost use Rattle.log_verdict.specs.Verdict.{no_text};
ghost use Rattle.board_traces.specs.Texts.{all_text, astray_text, at_text, between_text, board_text, end_text, gone_text, heir_text, nowhere_text, torn_text, went_text};

use crate::board::Board;
use crate::boards::Boards;
use crate::way::{Sort, Way, teller_of, way_of};
use board_record::BoardId;
use line_base::Memory;
use line_check::CheckWhy;
use standings::{Deed, Standing, standing_of};
use std::io::Write;

/// Appends the line of a board.
pub fn write_board(id: BoardId, board: &Board, to: &mut Vec<u8>) -> Result<(), Memory>
    ensures { OnOk result (to.new.items ≡ to.old.items ++ board_text id board.now) }
{
    match standing_of(board.marks.as_slice()) {
        Some(Standing::With(machine)) => write_at(id, machine, board.since, to),
        Some(Standing::Between(gap)) => write_between(id, gap, board.since, to),
        None => write_nowhere(id, board, to),
    }
}

fn write_at(id: BoardId, machine: u32, since: u64, to: &mut Vec<u8>) -> Result<(), Memory>
    ensures { OnOk result (to.new.items ≡ to.old.items ++ at_text id machine since) }
{
    write!(to, "{id} at {machine} since {since}\n").map_err(|_| Memory)
}

fn write_between(id: BoardId, gap: u32, since: u64, to: &mut Vec<u8>) -> Result<(), Memory>
    ensures { OnOk result (to.new.items ≡ to.old.items ++ between_text id gap since) }
{
    let next = u64::from(gap) + 1;
    write!(to, "{id} between {gap} {next} since {since}\n").map_err(|_| Memory)
}

/// Appends the line of a board that has no standing.
fn write_nowhere(id: BoardId, board: &Board, to: &mut Vec<u8>) -> Result<(), Memory>
    ensures { OnOk result (to.new.items
        ≡ to.old.items ++ nowhere_text id board.now.marks board.now.last board.now.since) }
{
    if board.marks.is_empty() {
        return write_gone(id, &board.last, board.since, to);
    }
    write_torn(id, board.since, to)
}

fn write_torn(id: BoardId, since: u64, to: &mut Vec<u8>) -> Result<(), Memory>
    ensures { OnOk result (to.new.items ≡ to.old.items ++ torn_text id since) }
{
    write!(to, "{id} no standing since {since}\n").map_err(|_| Memory)
}

fn write_gone(id: BoardId, last: &Deed, since: u64, to: &mut Vec<u8>) -> Result<(), Memory>
    ensures { OnOk result (to.new.items ≡ to.old.items ++ gone_text id last.now since) }
{
    write_went(id, teller_of(*last), way_of(*last), since, to)?;
    write_heir(last.named_beside(), last.named(), to)
}

fn write_went(
    id: BoardId,
    teller: u64,
    way: Way,
    since: u64,
    to: &mut Vec<u8>,
) -> Result<(), Memory>
    ensures { OnOk result (to.new.items ≡ to.old.items ++ went_text id teller way since) }
{
    write!(to, "{id} gone {teller} {way} {since}").map_err(|_| Memory)
}

fn write_heir(old: Option<BoardId>, new: BoardId, to: &mut Vec<u8>) -> Result<(), Memory>
    ensures { OnOk result (to.new.items ≡ to.old.items ++ heir_text old new) }
{
    match old {
        Some(_old) => write!(to, " {new}\n").map_err(|_| Memory),
        None => write!(to, "\n").map_err(|_| Memory),
    }
}

/// Appends the last line of a log that nothing is against.
pub fn write_end(lines: u64, boards: &Boards, to: &mut Vec<u8>) -> Result<(), Memory>
    ensures { OnOk result (to.new.items ≡ to.old.items ++ end_text lines boards.now) }
{
    let all = boards.len() as u64;
    let standing = boards.count(Sort::Standing);
    write_all(lines, all, standing, to)?;
    let gone = all.saturating_sub(standing);
    write_astray(
        gone,
        boards.count(Sort::Dropped),
        boards.count(Sort::Lost),
        to,
    )
}

fn write_all(lines: u64, boards: u64, standing: u64, to: &mut Vec<u8>) -> Result<(), Memory>
    ensures { OnOk result (to.new.items ≡ to.old.items ++ all_text lines boards standing) }
{
    write!(to, "end lines={lines} boards={boards} standing={standing}").map_err(|_| Memory)
}

fn write_astray(gone: u64, dropped: u64, lost: u64, to: &mut Vec<u8>) -> Result<(), Memory>
    ensures { OnOk result (to.new.items ≡ to.old.items ++ astray_text gone dropped lost) }
{
    write!(to, " gone={gone} dropped={dropped} lost={lost}\n").map_err(|_| Memory)
}

/// Appends the first reason against a log.
pub fn write_no(line: u64, why: CheckWhy, to: &mut Vec<u8>) -> Result<(), Memory>
    ensures { OnOk result (to.new.items ≡ to.old.items ++ no_text line why) }
{
    write!(to, "no {line} {why}\n").map_err(|_| Memory)
}
