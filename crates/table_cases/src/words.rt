//! What the words of several tables mean.

ghost use Rattle.std.specs.Prelude.{◌≡◌, IfSome};

use board_record::{BoardId, Record};
use line_base::{SensorEvent, Text, Transfer};
use std::alloc::Global;

/// A record of which nothing is known but its id and its maker; none where memory is wanting.
pub fn record(alloc: Global, id: BoardId) -> Option<Record>
    ensures { IfSome result (λ board. board.id ≡ id) }
{
    match Text::read(alloc, b"M1") {
        Ok(maker) => Some(Record::plain(id, maker, None)),
        Err(_) => None,
    }
}

pub fn event_of(word: &str) -> Option<SensorEvent> {
    match word {
        "begun" => Some(SensorEvent::Begun),
        "left" => Some(SensorEvent::Left),
        "full" => Some(SensorEvent::Full),
        "back" => Some(SensorEvent::Back),
        "taken" => Some(SensorEvent::Taken),
        _ => None,
    }
}

/// The number that a state has in messages.
pub fn number_of(state: Transfer) -> u8 {
    match state {
        Transfer::NotStarted => 1,
        Transfer::Incomplete => 2,
        Transfer::Complete => 3,
    }
}
