//! The boards that acts name, and what is told of their standings.

ghost use Rattle.std.specs.Prelude.{◌≡◌, ◌≤◌, ◌++◌, IfOk, OnOk, insert, length, slice_get, if◌then◌else◌};
ghost use Rattle.standings.specs.Marks.{is_held};
ghost use Rattle.line_marks.specs.Stepped.{with_ids};
ghost use Rattle.line_step.specs.Named.{id_of_deed, ids_named, ids_of_act, ids_of_happening};
ghost use Rattle.line_step.specs.Shown.{ascending, with_id};

use board_record::BoardId;
use line_base::Memory;
use line_report::{Happened, Happening};
use node_core::{Act, Deed};
use std::alloc::Global;

/// The ids that acts name, in ascending order, each once. `Memory` where there is none for the
/// list.
#[tactic(auto, using(crate::proofs::Places::ids_ascend))]
pub fn ids_named(alloc: Global, told: &[Happening]) -> Result<Vec<BoardId>, Memory>
    ensures { IfOk result (λ ids. ids.items ≡ ascending (ids_named told.now)) }
{
    let mut ids = Vec::new(alloc);
    add_all(told, &mut ids)?;
    Ok(ids)
}

fn add_all(told: &[Happening], ids: &mut Vec<BoardId>) -> Result<(), Memory>
    ensures { OnOk result (ids.new.items ≡ with_ids (ids_named told.now) ids.old.items) }
{
    for happening in told {
        add_named(happening, ids)?;
    }
    Ok(())
}

/// Those that the acts of a shift name on either of its lanes.
#[tactic(auto, using(crate::proofs::Places::ids_both))]
pub fn ids_of_both(
    alloc: Global,
    given: &[Happening],
    got: &[Happening],
) -> Result<Vec<BoardId>, Memory>
    ensures { IfOk result (λ ids. ids.items ≡ ascending (ids_named (given.now ++ got.now))) }
{
    let mut ids = Vec::new(alloc);
    add_all(given, &mut ids)?;
    add_all(got, &mut ids)?;
    Ok(ids)
}

fn add_named(happening: &Happening, ids: &mut Vec<BoardId>) -> Result<(), Memory>
    ensures { OnOk result
        (ids.new.items ≡ with_ids (ids_of_happening happening.now) ids.old.items) }
{
    match happening {
        Happening::Done { act, .. } => add_ids(act, ids),
        _ => Ok(()),
    }
}

fn add_ids(act: &Act, ids: &mut Vec<BoardId>) -> Result<(), Memory>
    ensures { OnOk result (ids.new.items ≡ with_ids (ids_of_act act.now) ids.old.items) }
{
    match act {
        Act::Deed(deed) => add_id(named_by(*deed), ids),
        Act::Inserts(id) => add_id(*id, ids),
        Act::Removes(id) => add_id(*id, ids),
        Act::Gives { id, .. } => add_id(*id, ids),
        Act::Gets { id } => add_id(*id, ids),
        Act::Replaces(old, new) => {
            add_id(*old, ids)?;
            add_id(*new, ids)
        }
        _ => Ok(()),
    }
}

fn named_by(deed: Deed) -> BoardId
    ensures { result ≡ id_of_deed deed }
{
    match deed {
        Deed::Opens(id) => id,
        Deed::Refuses(id) => id,
        Deed::Leaves(id) => id,
        Deed::Returns(id) => id,
        Deed::Loses(id) => id,
        Deed::Starts(id) => id,
        Deed::Settles(id) => id,
        Deed::Drops(id) => id,
    }
}

/// Puts an id into its place among ids in ascending order, unless it is there.
fn add_id(id: BoardId, ids: &mut Vec<BoardId>) -> Result<(), Memory>
    ensures { OnOk result (ids.new.items ≡ with_id id ids.old.items) }
{
    let place = place_for(ids.as_slice(), id);
    if is_at(ids.as_slice(), place, id) {
        return Ok(());
    }
    ids.insert(place, id)?;
    Ok(())
}

/// Where an id stands among ids in ascending order, or belongs.
fn place_for(ids: &[BoardId], id: BoardId) -> usize
    ensures within { result ≤ length ids.now }
    ensures put { with_id id ids.now
        ≡ (if is_held id (slice_get ids.now result) then ids.now else insert ids.now result id) }
{
    for (place, other) in ids.iter().enumerate() {
        if id <= *other {
            return place;
        }
    }
    ids.len()
}

fn is_at(ids: &[BoardId], place: usize, id: BoardId) -> bool
    ensures { result ≡ is_held id (slice_get ids.now place) }
{
    match ids.get(place) {
        Some(other) => *other == id,
        None => false,
    }
}
