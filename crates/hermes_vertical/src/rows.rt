//! The messages, read attribute by attribute in the order of their rows of the table.

ghost use Rattle.std.specs.Prelude.{ℕ, Some};
ghost use Rattle.hermes_element.specs.Element.{Forest};
ghost use Rattle.hermes_horizontal.specs.Fields.{Gives};
ghost use Rattle.hermes_horizontal.specs.Opened.{ReadsParts};
ghost use Rattle.hermes_horizontal.specs.Rows.{required};
ghost use Rattle.hermes_horizontal.specs.Said.{value_at, values_of};
ghost use Rattle.hermes_vertical.specs.Parts.{of_passing, passage_parts};
ghost use Rattle.hermes_vertical.specs.Rows.{passage_columns, passing};
ghost use Rattle.hermes_vertical.specs.Spelling.{ReadsBody, ReadsRow};
ghost use Rattle.hermes_vertical.specs.declared.kind.VerticalKind.TheVariants as kinds;

use crate::kind::{VerticalKind, kind_named};
use crate::message::{Passage, Passing, System, Vertical};
use crate::question::read_question;
use hermes_element::{LentAttributes, LentChildren, LentElement};
use hermes_horizontal::columns::{
    Alive, Field, Notice, Refusal, features_in, find_five, find_four, find_two, read_alive,
    read_notice,
};
use hermes_horizontal::{Attr, MessageError};
use std::alloc::Global;

/// What the element of a message says.
// Inlined, it fills its caller's frame with the fields of every message.
#[inline(never)]
pub fn body_of(alloc: Global, child: LentElement<'_>) -> Result<Vertical, MessageError>
    ensures { ReadsBody child.entry result }
{
    let LentElement {
        name,
        at,
        attributes,
        children,
    } = child;
    match kind_named(name.bytes()) {
        VerticalKind::SupervisoryServiceDescription => {
            description(alloc, at, attributes, &children)
        }
        VerticalKind::BoardArrived => board_arrived(alloc, at, attributes),
        VerticalKind::BoardDeparted => board_departed(alloc, at, attributes),
        VerticalKind::QueryWorkOrderInfo => query_work_order_info(alloc, at, attributes),
        VerticalKind::SendWorkOrderInfo => send_work_order_info(alloc, at, attributes),
        VerticalKind::CheckAlive => check_alive(alloc, attributes),
        VerticalKind::Notification => notification(alloc, at, attributes),
        VerticalKind::Other => Ok(Vertical::Other(name.own(alloc)?)),
    }
}

fn description(
    alloc: Global,
    at: usize,
    attributes: LentAttributes<'_>,
    children: &LentChildren<'_>,
) -> Result<Vertical, MessageError>
    ensures { ReadsRow kinds.SupervisoryServiceDescription at attributes.entry children.now result }
{
    let fields = find_two(attributes, Attr::SystemId, Attr::Version);
    let [system, version] = &fields;
    let system = system.text(at)?;
    let version = version.text(at)?;
    Ok(Vertical::SupervisoryServiceDescription(System {
        system: system.text(alloc)?,
        version: version.text(alloc)?,
        features: features_in(children),
    }))
}

fn board_arrived(
    alloc: Global,
    at: usize,
    attributes: LentAttributes<'_>,
) -> Result<Vertical, MessageError>
    ensures { (children : Forest)
        → ReadsRow kinds.BoardArrived at attributes.entry children result }
{
    Ok(Vertical::BoardArrived(passage(alloc, at, attributes)?))
}

fn board_departed(
    alloc: Global,
    at: usize,
    attributes: LentAttributes<'_>,
) -> Result<Vertical, MessageError>
    ensures { (children : Forest)
        → ReadsRow kinds.BoardDeparted at attributes.entry children result }
{
    Ok(Vertical::BoardDeparted(passage(alloc, at, attributes)?))
}

fn passage(
    alloc: Global,
    at: usize,
    attributes: LentAttributes<'_>,
) -> Result<Passage, MessageError>
    ensures { ReadsParts passage_parts result (values_of at attributes.entry passage_columns) }
{
    let fields = find_four(
        attributes,
        Attr::MachineId,
        Attr::LaneId,
        Attr::BoardTransfer,
        Attr::BoardId,
    );
    let [machine, lane, how, id] = &fields;
    let machine = machine.text(at)?;
    let lane = lane.number(at)?;
    let how = passing(how, at)?;
    let id = id.id(at)?;
    Ok(Passage {
        machine: machine.text(alloc)?,
        lane,
        how,
        id,
    })
}

/// How a board came or went, which must be there.
fn passing(field: &Field<'_>, at: usize) -> Result<Passing, Refusal>
    ensures { Gives (λ how. Some (of_passing how)) result
        (value_at at (required field.now.attr passing) field.now.found) }
{
    match field.choice(at, 1, 3)? {
        1 => Ok(Passing::Transferred),
        2 => Ok(Passing::Loaded),
        _ => Ok(Passing::ByHand),
    }
}

#[tactic(auto, using(crate::proofs::Asking::query_refused, crate::proofs::Asking::query_told))]
fn query_work_order_info(
    alloc: Global,
    at: usize,
    attributes: LentAttributes<'_>,
) -> Result<Vertical, MessageError>
    ensures { (children : Forest)
        → ReadsRow kinds.QueryWorkOrderInfo at attributes.entry children result }
{
    let fields = find_five(
        attributes,
        Attr::QueryId,
        Attr::Barcode,
        Attr::WorkOrderId,
        Attr::MagazineId,
        Attr::SlotId,
    );
    let [number, barcode, order, magazine, slot] = &fields;
    let query = number.long_number(at)?;
    let question = read_question(alloc, at, number, barcode, order, magazine, slot)?;
    Ok(Vertical::QueryWorkOrderInfo { query, question })
}

fn send_work_order_info(
    alloc: Global,
    at: usize,
    attributes: LentAttributes<'_>,
) -> Result<Vertical, MessageError>
    ensures { (children : Forest)
        → ReadsRow kinds.SendWorkOrderInfo at attributes.entry children result }
{
    let fields = find_four(
        attributes,
        Attr::QueryId,
        Attr::WorkOrderId,
        Attr::BatchId,
        Attr::ProductTypeId,
    );
    let [query, order, batch, product] = &fields;
    let query = query.long_number(at)?;
    let order = order.text(at)?;
    Ok(Vertical::SendWorkOrderInfo {
        query,
        order: order.text(alloc)?,
        batch: batch.optional_text(alloc)?,
        product: product.optional_text(alloc)?,
    })
}

fn check_alive(alloc: Global, attributes: LentAttributes<'_>) -> Result<Vertical, MessageError>
    ensures { (at : ℕ) (children : Forest)
        → ReadsRow kinds.CheckAlive at attributes.entry children result }
{
    let Alive { ping, id } = read_alive(alloc, attributes)?;
    Ok(Vertical::CheckAlive { ping, id })
}

fn notification(
    alloc: Global,
    at: usize,
    attributes: LentAttributes<'_>,
) -> Result<Vertical, MessageError>
    ensures { (children : Forest)
        → ReadsRow kinds.Notification at attributes.entry children result }
{
    let Notice {
        code,
        severity,
        text,
    } = read_notice(alloc, at, attributes)?;
    Ok(Vertical::Notification {
        code,
        severity,
        text,
    })
}
