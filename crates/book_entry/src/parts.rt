//! The parts of one byte, and sensor events.

ghost use Rattle.std.specs.Prelude.{◌≡◌, ◌≤◌};
ghost use Rattle.book_entry.specs.Answers.{Reads};
ghost use Rattle.book_entry.specs.Reading.{PutsOne, event_in, event_of, events_in, flag_in, line_in, line_of, quality_in, quality_of, seen_in, sensed_in, side_in, side_of};

use crate::entry::Events;
use crate::fault::{EntryError, Fail};
use crate::number::{behind, byte_below, byte_exactly};
use board_record::Sensed;
use line_base::{Quality, SensorEvent, Side};
use smema_bridge::SegmentLine;
use std::alloc::Global;

pub fn side_in(bytes: &[u8]) -> Result<Side, Fail>
    ensures { result ≡ side_in bytes.now }
{
    let number = byte_below(bytes, 2)?;
    Ok(side_of(number))
}

fn side_of(number: u8) -> Side
    ensures { result ≡ side_of number }
{
    if number == 0 { Side::Entry } else { Side::Exit }
}

pub fn flag_in(bytes: &[u8]) -> Result<bool, Fail>
    ensures { result ≡ flag_in bytes.now }
{
    let number = byte_below(bytes, 2)?;
    Ok(number == 1)
}

pub fn quality_in(bytes: &[u8]) -> Result<Quality, Fail>
    ensures { result ≡ quality_in bytes.now }
{
    let number = byte_below(bytes, 3)?;
    Ok(quality_of(number))
}

fn quality_of(number: u8) -> Quality
    ensures { result ≡ quality_of number }
{
    if number == 0 {
        return Quality::Unknown;
    }
    if number == 1 {
        return Quality::Good;
    }
    Quality::Failed
}

pub fn line_in(bytes: &[u8]) -> Result<SegmentLine, Fail>
    ensures { result ≡ line_in bytes.now }
{
    let number = byte_below(bytes, 3)?;
    Ok(line_of(number))
}

fn line_of(number: u8) -> SegmentLine
    ensures { result ≡ line_of number }
{
    if number == 0 {
        return SegmentLine::Ready;
    }
    if number == 1 {
        return SegmentLine::Available;
    }
    SegmentLine::Failed
}

fn event_in(bytes: &[u8]) -> Result<SensorEvent, Fail>
    ensures { result ≡ event_in bytes.now }
{
    let number = byte_below(bytes, 5)?;
    Ok(event_of(number))
}

fn event_of(number: u8) -> SensorEvent
    ensures { result ≡ event_of number }
{
    if number == 0 {
        return SensorEvent::Begun;
    }
    if number == 1 {
        return SensorEvent::Left;
    }
    if number == 2 {
        return SensorEvent::Full;
    }
    if number == 3 {
        return SensorEvent::Back;
    }
    SensorEvent::Taken
}

fn sensed_in(bytes: &[u8]) -> Result<Sensed, Fail>
    ensures { result ≡ sensed_in bytes.now }
{
    let _lane = byte_exactly(bytes, 1)?;
    seen_in(behind(bytes, 1))
}

fn seen_in(bytes: &[u8]) -> Result<Sensed, Fail>
    ensures { result ≡ seen_in bytes.now }
{
    let side = side_in(bytes)?;
    let event = event_in(behind(bytes, 1))?;
    Ok(Sensed { side, event })
}

/// So many sensor events.
pub fn events_in(alloc: Global, count: usize, bytes: &[u8]) -> Result<Events, EntryError>
    requires { count ≤ 65535 }
    ensures { Reads (events_in count bytes.now) result }
{
    let mut events = Events::new(alloc);
    for i in 0..count {
        match push_next(&mut events, behind(bytes, 3 * i)) {
            Ok(()) => {}
            Err(error) => return Err(error),
        }
    }
    Ok(events)
}

/// Adds the event that bytes begin with.
fn push_next(events: &mut Events, bytes: &[u8]) -> Result<(), EntryError>
    ensures { PutsOne (sensed_in bytes.now) events.old result events.new }
{
    let sensed = sensed_in(bytes)?;
    events.push(sensed)?;
    Ok(())
}
