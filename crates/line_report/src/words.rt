//! The words of the report.

ghost use Rattle.std.specs.Prelude.{◌≡◌};
ghost use Rattle.line_report.specs.Texts.{event_text, passing_text, ping_text, line_word, quality_text, side_text, signal_word, switch_word, transfer_text, will_word};

use hermes_horizontal::Ping;
use hermes_vertical::Passing;
use line_base::{Quality, SensorEvent, Side, Transfer};
use node_core::Signal;
use smema_bridge::SegmentLine;

/// The word for a side of a machine: `in` for its entry, `out` for its exit.
pub fn side_word(side: Side) -> &'static str
    ensures { result.now ≡ side_text side }
{
    match side {
        Side::Entry => "in",
        Side::Exit => "out",
    }
}

/// The word for what a sensor saw.
pub fn event_word(event: SensorEvent) -> &'static str
    ensures { result.now ≡ event_text event }
{
    match event {
        SensorEvent::Begun => "Begun",
        SensorEvent::Left => "Left",
        SensorEvent::Full => "Full",
        SensorEvent::Back => "Back",
        SensorEvent::Taken => "Taken",
    }
}

/// The word for a board's quality.
pub fn quality_word(quality: Quality) -> &'static str
    ensures { result.now ≡ quality_text quality }
{
    match quality {
        Quality::Unknown => "unknown",
        Quality::Good => "good",
        Quality::Failed => "failed",
    }
}

/// The word for being willing or not.
pub fn will_word(on: bool) -> &'static str
    ensures { result.now ≡ will_word on }
{
    if on { "go" } else { "hold" }
}

/// The word for a signal that is on or off.
pub fn switch_word(on: bool) -> &'static str
    ensures { result.now ≡ switch_word on }
{
    if on { "on" } else { "off" }
}

/// The word for a signal of a bridge's segment.
pub fn line_word(line: SegmentLine) -> &'static str
    ensures { result.now ≡ line_word line }
{
    match line {
        SegmentLine::Ready => "ready",
        SegmentLine::Available => "available",
        SegmentLine::Failed => "failed",
    }
}

/// The word for a signal of a bridge's own.
pub fn signal_word(signal: Signal) -> &'static str
    ensures { result.now ≡ signal_word signal }
{
    match signal {
        Signal::EntryAvailable => "entry-available",
        Signal::EntryFailed => "entry-failed",
        Signal::ExitReady => "exit-ready",
    }
}

/// How a board came or went, by its number in the supervisory channel.
pub fn passing_word(how: Passing) -> &'static str
    ensures { result.now ≡ passing_text how }
{
    match how {
        Passing::Transferred => "1",
        Passing::Loaded => "2",
        Passing::ByHand => "3",
    }
}

/// The type of a CheckAlive, with a space before it.
pub fn ping_mark(ping: Option<Ping>) -> &'static str
    ensures { result.now ≡ ping_text ping }
{
    match ping {
        None => "",
        Some(Ping::Ask) => " 1",
        Some(Ping::Answer) => " 2",
    }
}

/// The state of a transport, with a space before it.
pub fn transfer_mark(state: Transfer) -> &'static str
    ensures { result.now ≡ transfer_text state }
{
    match state {
        Transfer::NotStarted => " 1",
        Transfer::Incomplete => " 2",
        Transfer::Complete => " 3",
    }
}
