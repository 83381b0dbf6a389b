ghost use Rattle.std.specs.Prelude.{◌≡◌, ◌||◌, ℕ, Option, OnOk, option_to_list};
ghost use Rattle.std.specs.Ordering.{nat_cmp};
ghost use Rattle.std.specs.BTreeSet.{contains};
ghost use Rattle.standings.specs.Marks.{has_id};
ghost use Rattle.standings.specs.Ledger.{ids_named};

use board_record::BoardId;
use line_base::Memory;
use standings::Deed;
use std::collections::BTreeSet;

/// Adds the ids that a deed names to those that were seen.
pub fn see(seen: &mut BTreeSet<BoardId>, deed: &Deed) -> Result<(), Memory>
    ensures { OnOk result
        ((id : ℕ)
        → contains nat_cmp seen.new id
        ≡ (contains nat_cmp seen.old id || has_id id (ids_named deed.now))) }
{
    let beside = deed.named_beside();
    let id = deed.named();
    see_some(seen, beside)?;
    seen.insert(id)?;
    Ok(())
}

fn see_some(seen: &mut BTreeSet<BoardId>, id: Option<BoardId>) -> Result<(), Memory>
    ensures { OnOk result
        ((other : ℕ)
        → contains nat_cmp seen.new other
        ≡ (contains nat_cmp seen.old other || has_id other (option_to_list id))) }
{
    let Some(id) = id else {
        return Ok(());
    };
    seen.insert(id)?;
    Ok(())
}
