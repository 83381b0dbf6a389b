//! What a work order is asked for by.

ghost use Rattle.std.specs.Prelude.{◌≡◌};
ghost use Rattle.hermes_horizontal.specs.Opened.{ReadsParts};
ghost use Rattle.hermes_vertical.specs.Parts.{question_parts};
ghost use Rattle.hermes_vertical.specs.Questions.{place_of, question_said};

use crate::message::Question;
use hermes_horizontal::columns::Field;
use hermes_horizontal::{Attr, Fault, MessageError};
use std::alloc::Global;

/// What is asked for: by exactly a barcode, or exactly an order, or exactly a magazine and its
/// slot. Else the number of the question is refused.
pub fn read_question(
    alloc: Global,
    at: usize,
    query: &Field<'_>,
    barcode: &Field<'_>,
    order: &Field<'_>,
    magazine: &Field<'_>,
    slot: &Field<'_>,
) -> Result<Question, MessageError>
    ensures { ReadsParts question_parts result
        (question_said at query.now barcode.now order.now magazine.now slot.now) }
{
    match (&barcode.found, &order.found, &magazine.found, &slot.found) {
        (Some(found), None, None, None) => Ok(Question::Barcode(found.value.text(alloc)?)),
        (None, Some(found), None, None) => Ok(Question::Order(found.value.text(alloc)?)),
        (None, None, Some(found), Some(_)) => {
            let slot = slot.number(at)?;
            let magazine = found.value.text(alloc)?;
            Ok(Question::Place { magazine, slot })
        }
        _ => Err(refused(at, query)),
    }
}

fn refused(at: usize, query: &Field<'_>) -> MessageError
    ensures { result ≡ MessageError.Refused (place_of at query.now.found)
        (Fault.BadValue Attr.QueryId) }
{
    MessageError::Refused {
        at: place(at, query),
        why: Fault::BadValue(Attr::QueryId),
    }
}

fn place(at: usize, query: &Field<'_>) -> usize
    ensures { result ≡ place_of at query.now.found }
{
    match &query.found {
        Some(attribute) => attribute.at,
        None => at,
    }
}
