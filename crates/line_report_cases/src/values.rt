//! The values of the cases, by their words.

use board_record::BoardId;
use line_base::{Quality, SensorEvent, Side};
use node_core::Signal;
use smema_bridge::SegmentLine;

/// A word, and what follows it.
pub fn parted(words: &str) -> (&str, &str) {
    match words.split_once(' ') {
        Some(parts) => parts,
        None => (words, ""),
    }
}

pub fn number_of(word: &str) -> u32 {
    word.parse().unwrap_or(0)
}

pub fn long_of(word: Option<&str>) -> u64 {
    match word {
        Some(word) => word.parse().unwrap_or(0),
        None => 0,
    }
}

pub fn id_of(word: &str) -> BoardId {
    BoardId::of(word.parse().unwrap_or(0))
}

/// The entry, unless the word is that of the exit.
pub fn side_of(word: &str) -> Side {
    match word {
        "Exit" => Side::Exit,
        _ => Side::Entry,
    }
}

pub fn event_of(word: &str) -> SensorEvent {
    match word {
        "Begun" => SensorEvent::Begun,
        "Left" => SensorEvent::Left,
        "Full" => SensorEvent::Full,
        "Back" => SensorEvent::Back,
        _ => SensorEvent::Taken,
    }
}

pub fn quality_of(word: &str) -> Quality {
    match word {
        "Good" => Quality::Good,
        "Failed" => Quality::Failed,
        _ => Quality::Unknown,
    }
}

pub fn line_of(word: &str) -> SegmentLine {
    match word {
        "Ready" => SegmentLine::Ready,
        "Available" => SegmentLine::Available,
        _ => SegmentLine::Failed,
    }
}

pub fn signal_of(word: &str) -> Signal {
    match word {
        "EntryAvailable" => Signal::EntryAvailable,
        "EntryFailed" => Signal::EntryFailed,
        _ => Signal::ExitReady,
    }
}
