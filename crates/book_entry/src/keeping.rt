ghost use Rattle.std.specs.Prelude.{◌≡◌, ◌≤◌, IfOk, IfSome, length};
ghost use Rattle.book_entry.specs.Spelling.{IsWritable};
ghost use Rattle.book_entry.specs.Given.{IsOfOneLane, entry_of, own_of};
ghost use Rattle.book_entry.specs.Short.{AreFew, IsFew, IsFewQuestion, IsShort};

use crate::{Entry, Events, OwnBytes, OwnInput};
use board_record::Sensed;
use hermes_vertical::Question;
use line_base::{Memory, Moment, Text};
use node_core::Input;
use std::alloc::Global;

/// The entry of a step of a machine of one lane. It can be written.
///
/// `Memory` where it was wanting for the input's texts and bytes.
pub fn own_entry(
    alloc: Global,
    sensed: &[Sensed],
    input: &Input<'_>,
    moment: Moment,
) -> Result<Entry, Memory>
    requires events { length sensed.now ≤ 65535 }
    requires short { IsShort (own_of input.now) }
    requires alone { IsOfOneLane input.now }
    ensures entry { IfOk result (λ entry. entry ≡ entry_of sensed.now input.now moment) }
    ensures writable { IfOk result IsWritable }
{
    let sensed = events_of(alloc, sensed)?;
    let input = own_of(alloc, input)?;
    let entry = Entry {
        sensed,
        input,
        moment,
    };
    entry_is_short(&entry);
    Ok(entry)
}

fn entry_is_short(entry: &Entry)
    requires events { length entry.now.sensed ≤ 65535 }
    requires short { IsShort entry.now.input }
    ensures { IsWritable entry.now }
{
    texts_are_few(&entry.input);
}

fn texts_are_few(input: &OwnInput)
    ensures { AreFew input.now }
{
    match input {
        OwnInput::Insert(barcode) => maybe_text_is_few(barcode),
        OwnInput::Query(barcode) => text_is_few(barcode),
        OwnInput::Ask(question) => question_is_few(question),
        OwnInput::Answer { query: _, order } => text_is_few(order),
        OwnInput::Sub {
            id: _,
            pos: _,
            barcode,
        } => maybe_text_is_few(barcode),
        _ => {}
    }
}

fn question_is_few(question: &Question)
    ensures { IsFewQuestion question.now }
{
    match question {
        Question::Barcode(text) => text_is_few(text),
        Question::Order(text) => text_is_few(text),
        Question::Place { magazine, slot: _ } => text_is_few(magazine),
    }
}

fn maybe_text_is_few(text: &Option<Text>)
    ensures { IfSome text.now IsFew }
{
    if let Some(text) = text {
        text_is_few(text);
    }
}

fn text_is_few(text: &Text)
    ensures { IsFew text.now }
{
    let _bytes = text.bytes();
}

/// These events, kept.
fn events_of(alloc: Global, sensed: &[Sensed]) -> Result<Events, Memory>
    ensures { IfOk result (λ events. events ≡ sensed.now) }
{
    let mut events = Events::new(alloc);
    for one in sensed {
        events.push(*one)?;
    }
    Ok(events)
}

/// An input of one lane, kept.
fn own_of(alloc: Global, input: &Input<'_>) -> Result<OwnInput, Memory>
    ensures { IfOk result (λ kept. kept ≡ own_of input.now) }
{
    match input {
        Input::Nothing => Ok(OwnInput::Nothing),
        Input::Connect => Ok(OwnInput::Connect),
        Input::Accepted => Ok(OwnInput::Accepted),
        Input::Second => Ok(OwnInput::Second),
        Input::Bytes(side, bytes) => Ok(OwnInput::Bytes(*side, OwnBytes::of(alloc, *bytes)?)),
        Input::Notice(side) => Ok(OwnInput::Notice(*side)),
        Input::Tick => Ok(OwnInput::Tick),
        Input::Shutdown => Ok(OwnInput::Shutdown),
        Input::Fault(side) => Ok(OwnInput::Fault(*side)),
        Input::Will(side, on) => Ok(OwnInput::Will(*side, *on)),
        Input::Level(line, on) => Ok(OwnInput::Level(*line, *on)),
        Input::Insert(barcode) => Ok(OwnInput::Insert(copy_maybe(alloc, barcode)?)),
        Input::Remove(id) => Ok(OwnInput::Remove(*id)),
        Input::Replace(id) => Ok(OwnInput::Replace(*id)),
        Input::Mark(id, quality) => Ok(OwnInput::Mark(*id, *quality)),
        Input::Forecast => Ok(OwnInput::Forecast),
        Input::Query(barcode) => Ok(OwnInput::Query(barcode.copy(alloc)?)),
        Input::Supervise(on) => Ok(OwnInput::Supervise(*on)),
        Input::Ask(question) => Ok(OwnInput::Ask(question.copy(alloc)?)),
        Input::Answer { query, order } => Ok(OwnInput::Answer {
            query: *query,
            order: order.copy(alloc)?,
        }),
        Input::Sub { id, pos, barcode } => Ok(OwnInput::Sub {
            id: *id,
            pos: *pos,
            barcode: copy_maybe(alloc, barcode)?,
        }),
        Input::Gives { .. } => Ok(OwnInput::Nothing),
        Input::Gets(_) => Ok(OwnInput::Nothing),
    }
}

fn copy_maybe(alloc: Global, text: &Option<Text>) -> Result<Option<Text>, Memory>
    ensures { IfOk result (λ copy. copy ≡ text.now) }
{
    match text {
        Some(text) => Ok(Some(text.copy(alloc)?)),
        None => Ok(None),
    }
}
