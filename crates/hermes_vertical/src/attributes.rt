ghost use Rattle.std.specs.Prelude.{◌≡◌, ◌++◌, OnOk, option_map};
ghost use Rattle.hermes_element.specs.Standing.{StillStands};
ghost use Rattle.hermes_horizontal.specs.Canonical.{assigned, assignment};
ghost use Rattle.hermes_horizontal.specs.Values.{numbered};
ghost use Rattle.hermes_vertical.specs.Parts.{kind_of, order_parts, parts, passage_parts, passing_number, question_parts, system_parts};
ghost use Rattle.hermes_vertical.specs.Rows.{columns_of, passage_columns, question_columns};
ghost use Rattle.hermes_vertical.specs.Written.{asked_parts};
ghost use Rattle.hermes_vertical.specs.declared.kind.VerticalKind.TheVariants as kinds;

use crate::message::{Passage, Passing, Question, System, Vertical};
use hermes_horizontal::Attr;
use hermes_horizontal::columns::{
    append, append_alive, append_id, append_notice, append_number, append_optional_number,
    append_optional_text, append_text,
};
use line_base::{Memory, Text};

/// Appends the attributes of a message in the order of its row of the table.
pub fn append_attributes(body: &Vertical, to: &mut Vec<u8>) -> Result<(), Memory>
    ensures kept { StillStands to.old.items to.new.items }
    ensures written { OnOk result
        (to.new.items ≡ assigned to.old.items (columns_of (kind_of body.now)) (parts body.now)) }
{
    match body {
        Vertical::SupervisoryServiceDescription(system) => append_system(system, to),
        Vertical::BoardArrived(passage) => append_passage(passage, to),
        Vertical::BoardDeparted(passage) => append_passage(passage, to),
        Vertical::QueryWorkOrderInfo { query, question } => {
            append_long_number(Attr::QueryId, *query, to)?;
            append_asked(&Asked::of(question), to)
        }
        Vertical::SendWorkOrderInfo {
            query,
            order,
            batch,
            product,
        } => append_order(*query, order, batch.as_ref(), product.as_ref(), to),
        Vertical::CheckAlive { ping, id } => append_alive(*ping, id.as_ref(), to),
        Vertical::Notification {
            code,
            severity,
            text,
        } => append_notice(*code, *severity, text, to),
        Vertical::Other(_) => Ok(()),
    }
}

fn append_system(system: &System, to: &mut Vec<u8>) -> Result<(), Memory>
    ensures kept { StillStands to.old.items to.new.items }
    ensures written { OnOk result
        (to.new.items ≡ assigned to.old.items (columns_of kinds.SupervisoryServiceDescription)
        (system_parts system.now)) }
{
    append_text(Attr::SystemId, &system.system, to)?;
    append_text(Attr::Version, &system.version, to)
}

fn append_passage(passage: &Passage, to: &mut Vec<u8>) -> Result<(), Memory>
    ensures kept { StillStands to.old.items to.new.items }
    ensures written { OnOk result
        (to.new.items ≡ assigned to.old.items passage_columns (passage_parts passage.now)) }
{
    append_text(Attr::MachineId, &passage.machine, to)?;
    append_number(Attr::LaneId, passage.lane, to)?;
    append_number(Attr::BoardTransfer, passing_number(passage.how), to)?;
    append_id(Attr::BoardId, passage.id, to)
}

fn passing_number(how: Passing) -> u32
    ensures { result ≡ passing_number how }
{
    match how {
        Passing::Transferred => 1,
        Passing::Loaded => 2,
        Passing::ByHand => 3,
    }
}

fn append_order(
    query: u64,
    order: &Text,
    batch: Option<&Text>,
    product: Option<&Text>,
    to: &mut Vec<u8>,
) -> Result<(), Memory>
    ensures kept { StillStands to.old.items to.new.items }
    ensures written { OnOk result
        (to.new.items ≡ assigned to.old.items (columns_of kinds.SendWorkOrderInfo)
        (order_parts query order.now (option_map (λ text. text.now) batch.entry)
        (option_map (λ text. text.now) product.entry))) }
{
    append_long_number(Attr::QueryId, query, to)?;
    append_text(Attr::WorkOrderId, order, to)?;
    append_optional_text(Attr::BatchId, batch, to)?;
    append_optional_text(Attr::ProductTypeId, product, to)
}

/// What a work order is asked for by, lent by a question.
#[derive(Clone, Copy)]
pub struct Asked<'a> {
    barcode: Option<&'a Text>,
    order: Option<&'a Text>,
    magazine: Option<&'a Text>,
    slot: Option<u32>,
}

impl Asked<'_> {
    fn of(question: &Question) -> Asked<'_>
        ensures { asked_parts result ≡ question_parts question.now }
    {
        let none = Asked {
            barcode: None,
            order: None,
            magazine: None,
            slot: None,
        };
        match question {
            Question::Barcode(barcode) => Asked {
                barcode: Some(barcode),
                ..none
            },
            Question::Order(order) => Asked {
                order: Some(order),
                ..none
            },
            Question::Place { magazine, slot } => Asked {
                magazine: Some(magazine),
                slot: Some(*slot),
                ..none
            },
        }
    }
}

fn append_asked(asked: &Asked<'_>, to: &mut Vec<u8>) -> Result<(), Memory>
    ensures kept { StillStands to.old.items to.new.items }
    ensures written { OnOk result
        (to.new.items ≡ assigned to.old.items question_columns (asked_parts asked.now)) }
{
    append_optional_text(Attr::Barcode, asked.barcode, to)?;
    append_optional_text(Attr::WorkOrderId, asked.order, to)?;
    append_optional_text(Attr::MagazineId, asked.magazine, to)?;
    append_optional_number(Attr::SlotId, asked.slot, to)
}

fn append_long_number(attr: Attr, number: u64, to: &mut Vec<u8>) -> Result<(), Memory>
    ensures kept { StillStands to.old.items to.new.items }
    ensures written { OnOk result (to.new.items ≡ to.old.items ++ assignment attr (numbered number)) }
{
    append(to, attr.opening().as_bytes())?;
    append(to, itoa::Buffer::new().format(number).as_bytes())?;
    append(to, b"\"")
}
