//! The marks of a board, and those that the machines of a line have.

ghost use Rattle.std.specs.Prelude.{◌≡◌, ◌≤◌, [], ◌∷◌, ◌++◌, IfOk, OnOk, length, map};
ghost use Rattle.std.specs.Option.{option_copied};
ghost use Rattle.node_core.specs.Own.{id_of, ids_of};
ghost use Rattle.standings.specs.Marks.{has_id, is_held, mark_if, marks_at, marks_from};
ghost use Rattle.line_step.specs.State.{owned_by};
ghost use Rattle.line_marks.specs.Indexed.{above, below, machine_of, patched};

use crate::span::{Span, between};
use board_record::{BoardId, Record};
use line_base::Memory;
use node_core::Node;
use standings::Mark;
use std::alloc::Global;
use std::marker::Model;

/// Marks of a board, in the order of the machines. It is seen as their list.
#[derive(Drop)]
pub struct Marks {
    list: Vec<Mark>,
}

impl Model for Marks {
    ghost use Rattle.std.specs.Prelude.{List};
    ghost use Rattle.standings.specs.declared.mark.Mark.{Mark};

    ghost Value = { List Mark };

    ghost view = { λ marks. marks.list.items };
}

impl Marks {
    /// No marks.
    pub fn none(alloc: Global) -> Marks
        ensures { result ≡ [] }
    {
        Marks {
            list: Vec::new(alloc),
        }
    }

    /// The marks.
    pub fn list(&self) -> &[Mark]
        ensures { result.now ≡ self.now }
    {
        self.list.as_slice()
    }

    /// Another mark behind the others. `Memory` where there is none for it.
    fn add(&mut self, mark: Mark) -> Result<(), Memory>
        ensures { OnOk result (self.new ≡ self.old ++ mark ∷ []) }
    {
        self.list.push(mark)?;
        Ok(())
    }

    /// Another mark, where the board has it.
    fn add_if(&mut self, has: bool, mark: Mark) -> Result<(), Memory>
        ensures { OnOk result (self.new ≡ self.old ++ mark_if has mark) }
    {
        if has {
            return self.add(mark);
        }
        Ok(())
    }

    /// The marks of a board at a machine: kept, outlet, intake.
    fn add_at(&mut self, machine: u32, node: &Node, id: BoardId) -> Result<(), Memory>
        ensures { OnOk result (self.new ≡ self.old ++ marks_at machine (owned_by node.now) id) }
    {
        self.add_if(keeps(node.kept(), id), Mark::Kept(machine))?;
        self.add_if(is_of(node.outlet().holds(), id), Mark::Outlet(machine))?;
        self.add_if(is_of(node.intake().holds(), id), Mark::Intake(machine))
    }

    /// Some marks behind the others.
    fn add_all(&mut self, marks: &[Mark]) -> Result<(), Memory>
        ensures { OnOk result (self.new ≡ self.old ++ marks.now) }
    {
        for mark in marks {
            self.add(*mark)?;
        }
        Ok(())
    }

    /// Those of some marks that are of machines before this one.
    fn add_below(&mut self, first: u32, marks: &[Mark]) -> Result<(), Memory>
        ensures { OnOk result (self.new ≡ self.old ++ below first marks.now) }
    {
        for mark in marks {
            self.add_if(machine_of(*mark) < first, *mark)?;
        }
        Ok(())
    }

    /// Those of some marks that are of machines behind this one.
    fn add_above(&mut self, last: u32, marks: &[Mark]) -> Result<(), Memory>
        ensures { OnOk result (self.new ≡ self.old ++ above last marks.now) }
    {
        for mark in marks {
            self.add_if(last < machine_of(*mark), *mark)?;
        }
        Ok(())
    }

    /// The marks of a board at machines that are numbered from this number on.
    fn add_from(&mut self, first: u32, machines: &[Node], id: BoardId) -> Result<(), Memory>
        requires early { first ≤ 64 }
        requires few { length machines.now ≤ 64 }
        ensures { OnOk result
            (self.new ≡ self.old ++ marks_from first (map owned_by machines.now) id) }
    {
        let mut number = first;
        for node in machines {
            self.add_at(number, node, id)?;
            number += 1;
        }
        Ok(())
    }
}

/// The marks that a board had, and in their place at the machines that may have stepped those that
/// it has there now.
pub fn patched(
    alloc: Global,
    was: &[Mark],
    machines: &[Node],
    span: Span,
    id: BoardId,
) -> Result<Marks, Memory>
    requires early { span.first ≤ 64 }
    requires few { length machines.now ≤ 64 }
    ensures { IfOk result
        (λ now. now ≡ patched span.first span.last (map owned_by machines.now) was.now id) }
{
    let mut now = Marks::none(alloc);
    if span.first == 0 {
        now.add_all(was)?;
        return Ok(now);
    }
    now.add_below(span.first, was)?;
    now.add_from(span.first, between(machines, span), id)?;
    now.add_above(span.last, was)?;
    Ok(now)
}

/// The machine that a mark is of.
pub fn machine_of(mark: Mark) -> u32
    ensures { result ≡ machine_of mark }
{
    match mark {
        Mark::Kept(machine) => machine,
        Mark::Outlet(machine) => machine,
        Mark::Intake(machine) => machine,
    }
}

/// Whether the board is among kept ones. It is looked for from the back: there it is asked for
/// when it has just come.
fn keeps(boards: &[Record], id: BoardId) -> bool
    ensures { result ≡ has_id id (ids_of boards.now) }
{
    boards.iter().rev().any(|board| board.id == id)
}

/// Whether a half that holds this record, or none, holds the board.
fn is_of(board: Option<&Record>, id: BoardId) -> bool
    ensures { result ≡ is_held id (id_of (option_copied board.entry)) }
{
    match board {
        Some(board) => board.id == id,
        None => false,
    }
}
