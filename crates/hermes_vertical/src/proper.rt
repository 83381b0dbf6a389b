//! What the types of a message's parts say of them. Each function states it of a kind of part: it
//! goes over the part, and changes nothing.

ghost use Rattle.std.specs.Prelude.{◌<◌, ◌^◌};
ghost use Rattle.std.specs.List.{AllByRecursion};
ghost use Rattle.line_base.specs.Name.{IsName};
ghost use Rattle.hermes_horizontal.specs.Canonical.{IsProperIf};
ghost use Rattle.hermes_vertical.specs.Canonical.{HasLongQuery, IsProperMessage};
ghost use Rattle.hermes_vertical.specs.Parts.{name_of, parts, passage_parts, question_parts, system_parts};

use crate::message::{Passage, Question, System, Vertical, VerticalMessage};
use hermes_horizontal::columns::{
    id_is_proper, optional_moment_is_proper, optional_text_is_proper, text_is_proper,
};

/// Every part of a message is within what its type allows.
pub fn parts_are_proper(message: &VerticalMessage)
    ensures { IsProperMessage message.now }
{
    optional_moment_is_proper(message.stamp);
    name_is_proper(&message.body);
    query_is_proper(&message.body);
    values_are_proper(&message.body);
}

fn name_is_proper(body: &Vertical)
    ensures { IsName (name_of body.now) }
{
    if let Vertical::Other(name) = body {
        let _bytes = name.bytes();
    }
}

fn query_is_proper(body: &Vertical)
    ensures { HasLongQuery body.now }
{
    match body {
        Vertical::QueryWorkOrderInfo { query, .. } => number_is_proper(*query),
        Vertical::SendWorkOrderInfo { query, .. } => number_is_proper(*query),
        _ => {}
    }
}

fn number_is_proper(number: u64)
    ensures { number < 2 ^ 64 }
{
    let _number = number;
}

fn values_are_proper(body: &Vertical)
    ensures { AllByRecursion IsProperIf (parts body.now) }
{
    match body {
        Vertical::SupervisoryServiceDescription(system) => system_is_proper(system),
        Vertical::BoardArrived(passage) => passage_is_proper(passage),
        Vertical::BoardDeparted(passage) => passage_is_proper(passage),
        Vertical::QueryWorkOrderInfo { question, .. } => question_is_proper(question),
        Vertical::SendWorkOrderInfo {
            order,
            batch,
            product,
            ..
        } => {
            text_is_proper(order);
            optional_text_is_proper(batch);
            optional_text_is_proper(product);
        }
        Vertical::CheckAlive { id, .. } => optional_text_is_proper(id),
        Vertical::Notification { text, .. } => text_is_proper(text),
        Vertical::Other(_) => {}
    }
}

fn system_is_proper(system: &System)
    ensures { AllByRecursion IsProperIf (system_parts system.now) }
{
    text_is_proper(&system.system);
    text_is_proper(&system.version);
}

fn passage_is_proper(passage: &Passage)
    ensures { AllByRecursion IsProperIf (passage_parts passage.now) }
{
    text_is_proper(&passage.machine);
    id_is_proper(passage.id);
}

fn question_is_proper(question: &Question)
    ensures { AllByRecursion IsProperIf (question_parts question.now) }
{
    match question {
        Question::Barcode(barcode) => text_is_proper(barcode),
        Question::Order(order) => text_is_proper(order),
        Question::Place { magazine, .. } => text_is_proper(magazine),
    }
}
