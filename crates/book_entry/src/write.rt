ghost use Rattle.std.specs.Prelude.{◌≡◌, ◌++◌, ◌∷◌, [], ◌^◌, ◌≤◌, ◌<◌, OnOk, OnErr, length};
ghost use Rattle.std.specs.Int.{to_be_bytes, w16, w32, w64};
ghost use Rattle.book_entry.specs.Spelling.{IsEntry, IsWritable, body_bytes, event_number, events_bytes, field_bytes, flag_number, id_bytes, input_bytes, line_number, maybe_text_bytes, millis_bytes, own_bytes, quality_number, question_bytes, sensed_bytes, side_number, spelling, text_bytes};

use crate::entry::{Entry, OwnBytes, OwnInput};
use crate::proper::entry_is_proper;
use board_record::{BoardId, Sensed};
use hermes_vertical::Question;
use line_base::{Memory, Moment, Quality, SensorEvent, Side, Text};
use smema_bridge::SegmentLine;
use std::alloc::Global;

/// Appends the one spelling of an entry, or leaves `to` as it was where memory is wanting. What is
/// written is read as this entry.
pub fn write_entry(alloc: Global, entry: &Entry, to: &mut Vec<u8>) -> Result<(), Memory>
    requires { IsWritable entry.now }
    ensures written { OnOk result (to.new.items ≡ to.old.items ++ spelling entry.now) }
    ensures unchanged { OnErr result (to.new.items ≡ to.old.items) }
    // it has a form, so what begins with its spelling is read as this entry
    ensures form { IsEntry entry.now }
{
    entry_is_proper(entry);
    let mut whole = Vec::new(alloc);
    append_entry(alloc, entry, &mut whole)?;
    append(whole.as_slice(), to)
}

fn append_entry(alloc: Global, entry: &Entry, to: &mut Vec<u8>) -> Result<(), Memory>
    requires { IsWritable entry.now }
    ensures { OnOk result (to.new.items ≡ to.old.items ++ spelling entry.now) }
{
    let mut body = Vec::new(alloc);
    append_body(entry, &mut body)?;
    append(&(body.len() as u32).to_be_bytes(), to)?;
    append(body.as_slice(), to)
}

fn append(bytes: &[u8], to: &mut Vec<u8>) -> Result<(), Memory>
    ensures written { OnOk result (to.new.items ≡ to.old.items ++ bytes.now) }
    ensures unchanged { OnErr result (to.new.items ≡ to.old.items) }
{
    match to.extend_from_slice(bytes) {
        Ok(()) => Ok(()),
        Err(_) => Err(Memory),
    }
}

fn append_body(entry: &Entry, to: &mut Vec<u8>) -> Result<(), Memory>
    requires { IsWritable entry.now }
    ensures { OnOk result (to.new.items ≡ to.old.items ++ body_bytes entry.now) }
{
    append_moment(entry.moment, to)?;
    let events = entry.sensed.list();
    append(&(events.len() as u16).to_be_bytes(), to)?;
    append_events(events, to)?;
    append_input(&entry.input, to)
}

fn append_moment(moment: Moment, to: &mut Vec<u8>) -> Result<(), Memory>
    ensures { OnOk result (to.new.items ≡ to.old.items ++ millis_bytes moment) }
{
    append(&moment.millis().cast_unsigned().to_be_bytes(), to)
}

fn append_events(events: &[Sensed], to: &mut Vec<u8>) -> Result<(), Memory>
    ensures { OnOk result (to.new.items ≡ to.old.items ++ events_bytes events.now) }
{
    for sensed in events {
        append_sensed(*sensed, to)?;
    }
    Ok(())
}

fn append_sensed(sensed: Sensed, to: &mut Vec<u8>) -> Result<(), Memory>
    ensures { OnOk result (to.new.items ≡ to.old.items ++ sensed_bytes sensed) }
{
    append(
        &[1, side_number(sensed.side), event_number(sensed.event)],
        to,
    )
}

fn append_input(input: &OwnInput, to: &mut Vec<u8>) -> Result<(), Memory>
    requires { length (field_bytes input.now) < 2 ^ 32 }
    ensures { OnOk result (to.new.items ≡ to.old.items ++ input_bytes input.now) }
{
    append(&[input.kind().tag()], to)?;
    append_fields(input, to)
}

fn append_fields(input: &OwnInput, to: &mut Vec<u8>) -> Result<(), Memory>
    requires { length (field_bytes input.now) < 2 ^ 32 }
    ensures { OnOk result (to.new.items ≡ to.old.items ++ field_bytes input.now) }
{
    match input {
        OwnInput::Nothing => Ok(()),
        OwnInput::Connect => Ok(()),
        OwnInput::Accepted => Ok(()),
        OwnInput::Second => Ok(()),
        OwnInput::Bytes(side, bytes) => append_bytes(*side, bytes, to),
        OwnInput::Notice(side) => append(&[side_number(*side)], to),
        OwnInput::Tick => Ok(()),
        OwnInput::Shutdown => Ok(()),
        OwnInput::Fault(side) => append(&[side_number(*side)], to),
        OwnInput::Will(side, on) => append(&[side_number(*side), flag_number(*on)], to),
        OwnInput::Level(line, on) => append(&[line_number(*line), flag_number(*on)], to),
        OwnInput::Insert(barcode) => append_maybe_text(barcode, to),
        OwnInput::Remove(id) => append_id(*id, to),
        OwnInput::Replace(id) => append_id(*id, to),
        OwnInput::Mark(id, quality) => append_mark(*id, *quality, to),
        OwnInput::Forecast => Ok(()),
        OwnInput::Query(barcode) => append_text(barcode, to),
        OwnInput::Supervise(on) => append(&[flag_number(*on)], to),
        OwnInput::Ask(question) => append_question(question, to),
        OwnInput::Answer { query, order } => append_answer(*query, order, to),
        OwnInput::Sub { id, pos, barcode } => append_sub(*id, *pos, barcode, to),
    }
}

/// The bytes of an input that brings some.
fn append_bytes(side: Side, bytes: &OwnBytes, to: &mut Vec<u8>) -> Result<(), Memory>
    requires { length bytes.now < 2 ^ 32 }
    ensures { OnOk result
        (to.new.items ≡ to.old.items ++ side_number side ∷ own_bytes bytes.now) }
{
    let bytes = bytes.bytes();
    append(&[side_number(side)], to)?;
    append(&(bytes.len() as u32).to_be_bytes(), to)?;
    append(bytes, to)
}

fn append_mark(id: BoardId, quality: Quality, to: &mut Vec<u8>) -> Result<(), Memory>
    ensures { OnOk result
        (to.new.items ≡ to.old.items ++ (id_bytes id ++ quality_number quality ∷ [])) }
{
    append_id(id, to)?;
    append(&[quality_number(quality)], to)
}

fn append_answer(query: u64, order: &Text, to: &mut Vec<u8>) -> Result<(), Memory>
    ensures { OnOk result
        (to.new.items ≡ to.old.items ++ (to_be_bytes w64 query ++ text_bytes order.now)) }
{
    append(&query.to_be_bytes(), to)?;
    append_text(order, to)
}

fn append_sub(id: BoardId, pos: u32, barcode: &Option<Text>, to: &mut Vec<u8>) -> Result<(), Memory>
    ensures { OnOk result (to.new.items
        ≡ to.old.items ++ (id_bytes id ++ (to_be_bytes w32 pos ++ maybe_text_bytes barcode.now))) }
{
    append_id(id, to)?;
    append(&pos.to_be_bytes(), to)?;
    append_maybe_text(barcode, to)
}

fn append_id(id: BoardId, to: &mut Vec<u8>) -> Result<(), Memory>
    ensures { OnOk result (to.new.items ≡ to.old.items ++ id_bytes id) }
{
    append(&id.number().to_be_bytes(), to)
}

fn append_text(text: &Text, to: &mut Vec<u8>) -> Result<(), Memory>
    ensures { OnOk result (to.new.items ≡ to.old.items ++ text_bytes text.now) }
{
    let bytes = text.bytes();
    append(&(bytes.len() as u16).to_be_bytes(), to)?;
    append(bytes, to)
}

fn append_maybe_text(text: &Option<Text>, to: &mut Vec<u8>) -> Result<(), Memory>
    ensures { OnOk result (to.new.items ≡ to.old.items ++ maybe_text_bytes text.now) }
{
    match text {
        Some(text) => append_some_text(text, to),
        None => append(&[0], to),
    }
}

fn append_some_text(text: &Text, to: &mut Vec<u8>) -> Result<(), Memory>
    ensures { OnOk result (to.new.items ≡ to.old.items ++ 1 ∷ text_bytes text.now) }
{
    append(&[1], to)?;
    append_text(text, to)
}

fn append_question(question: &Question, to: &mut Vec<u8>) -> Result<(), Memory>
    ensures { OnOk result (to.new.items ≡ to.old.items ++ question_bytes question.now) }
{
    match question {
        Question::Barcode(text) => append_asked(0, text, to),
        Question::Order(text) => append_asked(1, text, to),
        Question::Place { magazine, slot } => append_place(magazine, *slot, to),
    }
}

fn append_asked(tag: u8, text: &Text, to: &mut Vec<u8>) -> Result<(), Memory>
    ensures { OnOk result (to.new.items ≡ to.old.items ++ tag ∷ text_bytes text.now) }
{
    append(&[tag], to)?;
    append_text(text, to)
}

fn append_place(magazine: &Text, slot: u32, to: &mut Vec<u8>) -> Result<(), Memory>
    ensures { OnOk result (to.new.items
        ≡ to.old.items ++ 2 ∷ (text_bytes magazine.now ++ to_be_bytes w32 slot)) }
{
    append_asked(2, magazine, to)?;
    append(&slot.to_be_bytes(), to)
}

fn side_number(side: Side) -> u8
    ensures { result ≡ side_number side }
{
    match side {
        Side::Entry => 0,
        Side::Exit => 1,
    }
}

fn flag_number(on: bool) -> u8
    ensures { result ≡ flag_number on }
{
    if on { 1 } else { 0 }
}

fn event_number(event: SensorEvent) -> u8
    ensures { result ≡ event_number event }
{
    match event {
        SensorEvent::Begun => 0,
        SensorEvent::Left => 1,
        SensorEvent::Full => 2,
        SensorEvent::Back => 3,
        SensorEvent::Taken => 4,
    }
}

fn quality_number(quality: Quality) -> u8
    ensures { result ≡ quality_number quality }
{
    match quality {
        Quality::Unknown => 0,
        Quality::Good => 1,
        Quality::Failed => 2,
    }
}

fn line_number(line: SegmentLine) -> u8
    ensures { result ≡ line_number line }
{
    match line {
        SegmentLine::Ready => 0,
        SegmentLine::Available => 1,
        SegmentLine::Failed => 2,
    }
}
