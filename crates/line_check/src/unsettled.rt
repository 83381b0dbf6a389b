ghost use Rattle.std.specs.Prelude.{◌≡◌, ℕ, OnOk, nat_eq, option_to_list, if◌then◌else◌};
ghost use Rattle.std.specs.Ordering.{nat_cmp};
ghost use Rattle.std.specs.BTreeSet.{contains};
ghost use Rattle.standings.specs.Marks.{has_id};
ghost use Rattle.standings.specs.Ledger.{ids_named};
ghost use Rattle.line_check.specs.Marks.{lack_standing};
ghost use Rattle.line_check.specs.Table.{marks_of};

use crate::table::Table;
use board_record::BoardId;
use line_base::Memory;
use standings::{Deed, Mark, standing_of};
use std::collections::BTreeSet;

/// Notes of the ids that a deed names whether they have marks and no standing.
pub fn settle(unsettled: &mut BTreeSet<BoardId>, table: &Table, deed: &Deed) -> Result<(), Memory>
    ensures { OnOk result
        ((id : ℕ)
        → contains nat_cmp unsettled.new id
        ≡ (if has_id id (ids_named deed.now) then lack_standing
        (marks_of table.now id) else contains nat_cmp unsettled.old id)) }
{
    let beside = deed.named_beside();
    let id = deed.named();
    settle_some(unsettled, table, beside)?;
    settle_one(unsettled, table, id)
}

fn settle_some(
    unsettled: &mut BTreeSet<BoardId>,
    table: &Table,
    id: Option<BoardId>,
) -> Result<(), Memory>
    ensures { OnOk result
        ((other : ℕ)
        → contains nat_cmp unsettled.new other
        ≡ (if has_id other (option_to_list id) then lack_standing
        (marks_of table.now other) else contains nat_cmp unsettled.old other)) }
{
    match id {
        Some(id) => settle_one(unsettled, table, id),
        None => Ok(()),
    }
}

fn settle_one(unsettled: &mut BTreeSet<BoardId>, table: &Table, id: BoardId) -> Result<(), Memory>
    ensures { OnOk result
        ((other : ℕ)
        → contains nat_cmp unsettled.new other
        ≡ (if nat_eq id other then lack_standing
        (marks_of table.now id) else contains nat_cmp unsettled.old other)) }
{
    if lack_standing(table.of(id)) {
        unsettled.insert(id)?;
        return Ok(());
    }
    unsettled.remove(&id);
    Ok(())
}

/// Whether marks give no standing. No marks lack none.
fn lack_standing(marks: &[Mark]) -> bool
    ensures { result ≡ lack_standing marks.now }
{
    !marks.is_empty() && standing_of(marks).is_none()
}
