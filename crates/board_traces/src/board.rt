ghost use Rattle.std.specs.Prelude.{◌≡◌, ◌^◌, ◌-◌, ◌<◌, IfOk};
ghost use Rattle.std.specs.Option.{option_copied};
ghost use Rattle.standings.specs.Deeds.{gap_of};
ghost use Rattle.standings.specs.Standing.{standing_of};
ghost use Rattle.board_traces.specs.Course.{course_after, course_by, stays};

use crate::change::changed;
use board_record::BoardId;
use line_base::Memory;
use standings::{Deed, Mark, Standing, standing_of};
use std::alloc::Global;
use std::marker::Model;

/// A board's course so far.
#[derive(Drop)]
pub struct Board {
    pub marks: Vec<Mark>,
    /// The number of the line since which it is so.
    pub since: u64,
    /// The last deed that named the board.
    pub last: Deed,
}

impl Model for Board {
    ghost use Rattle.board_traces.specs.Course.{Course};

    ghost Value = { Course };

    ghost view = { λ board. record { marks = board.marks.items; since = board.since; last = board.last } };
}

impl Board {
    /// The course of a board after a deed at a line that names it; of a new one where it had none.
    pub fn after(
        alloc: Global,
        was: Option<&Board>,
        line: u64,
        deed: &Deed,
        id: BoardId,
    ) -> Result<Board, Memory>
        requires { gap_of deed.now < 2 ^ 32 - 1 }
        ensures { IfOk result (λ board. board
            ≡ course_after line deed.now id (option_copied was.entry)) }
    {
        match was {
            Some(board) => course_by(alloc, line, deed, id, board.marks.as_slice(), board.since),
            None => course_by(alloc, line, deed, id, &[], line),
        }
    }
}

fn course_by(
    alloc: Global,
    line: u64,
    deed: &Deed,
    id: BoardId,
    was: &[Mark],
    since: u64,
) -> Result<Board, Memory>
    requires { gap_of deed.now < 2 ^ 32 - 1 }
    ensures { IfOk result (λ board. board ≡ course_by line deed.now id was.now since) }
{
    let marks = changed(alloc, was, deed, id)?;
    let stood = standing_of(was);
    let stands = standing_of(marks.as_slice());
    let since = if stays(stood, stands) { since } else { line };
    Ok(Board {
        marks,
        since,
        last: *deed,
    })
}

/// Whether a standing is what it was.
fn stays(stood: Option<Standing>, stands: Option<Standing>) -> bool
    ensures { result ≡ stays stood stands }
{
    stood.is_some() && stood == stands
}
