//! The marks of a board after a deed.

ghost use Rattle.std.specs.Prelude.{◌≡◌, ◌^◌, ◌-◌, ◌<◌, IfOk, OnOk, not};
ghost use Rattle.standings.specs.Deeds.{gap_of};
ghost use Rattle.standings.specs.Marks.{is_same_mark};
ghost use Rattle.line_check.specs.Marks.{added_by, changed_by, taken_by, without_mark};

use board_record::BoardId;
use line_base::Memory;
use standings::{Deed, Entry, Mark};
use std::alloc::Global;

/// The marks of a board that had these before a deed.
pub fn changed(alloc: Global, was: &[Mark], deed: &Deed, id: BoardId) -> Result<Vec<Mark>, Memory>
    requires { gap_of deed.now < 2 ^ 32 - 1 }
    ensures { IfOk result (λ marks. marks.items ≡ changed_by deed.now id was.now) }
{
    let mut marks = match Vec::from_slice(alloc, was) {
        Ok(marks) => marks,
        Err(_) => return Err(Memory),
    };
    take_some(deed.taken(), id, &mut marks);
    add_some(deed.added(), id, &mut marks)?;
    Ok(marks)
}

fn take_some(entry: Option<Entry>, id: BoardId, marks: &mut Vec<Mark>)
    ensures { marks.new.items ≡ taken_by entry id marks.old.items }
{
    match entry {
        Some(entry) if entry.id == id => drop_mark(marks, entry.mark),
        _ => {}
    }
}

fn add_some(entry: Option<Entry>, id: BoardId, marks: &mut Vec<Mark>) -> Result<(), Memory>
    ensures { OnOk result (marks.new.items ≡ added_by entry id marks.old.items) }
{
    match entry {
        Some(entry) if entry.id == id => {
            marks.push(entry.mark)?;
            Ok(())
        }
        _ => Ok(()),
    }
}

/// Takes a mark out of some.
fn drop_mark(marks: &mut Vec<Mark>, mark: Mark)
    ensures { marks.new.items ≡ without_mark mark marks.old.items }
{
    marks.retain(
        |other: &Mark| -> bool
            ensures { result ≡ not (is_same_mark other.now mark) }
        { *other != mark },
    );
}
