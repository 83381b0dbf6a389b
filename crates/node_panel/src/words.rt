ghost use Rattle.std.specs.Prelude.{◌≡◌};
ghost use Rattle.node_panel.specs.Panel.{side_of, quality_of, id_of, event_of, last_event, last_event_of};

use board_record::BoardId;
use line_base::{Quality, SensorEvent, Side};
use line_script::LineWhy;
use line_script::words::identity;

/// A side. `BadSide` where the word is none.
pub fn side_of(word: &[u8]) -> Result<Side, LineWhy>
    ensures { result ≡ side_of word.now }
{
    if word == &b"in"[..] {
        return Ok(Side::Entry);
    }
    if word == &b"out"[..] {
        return Ok(Side::Exit);
    }
    Err(LineWhy::BadSide)
}

/// A quality. `BadWord` where the word is none.
pub fn quality_of(word: &[u8]) -> Result<Quality, LineWhy>
    ensures { result ≡ quality_of word.now }
{
    if word == &b"unknown"[..] {
        return Ok(Quality::Unknown);
    }
    if word == &b"good"[..] {
        return Ok(Quality::Good);
    }
    if word == &b"failed"[..] {
        return Ok(Quality::Failed);
    }
    Err(LineWhy::BadWord)
}

/// A board's id. `BadId` where the word is none.
pub fn id_of(word: &[u8]) -> Result<BoardId, LineWhy>
    ensures { result ≡ id_of word.now }
{
    identity(word)
}

/// What a sensor of a side sees. `BadWord` where it sees no such thing.
pub fn event_of(side: Side, word: &[u8]) -> Result<SensorEvent, LineWhy>
    ensures { result ≡ event_of side word.now }
{
    if word == &b"Begun"[..] {
        return Ok(SensorEvent::Begun);
    }
    if word == &b"Back"[..] {
        return Ok(SensorEvent::Back);
    }
    if word == &b"Taken"[..] {
        return Ok(SensorEvent::Taken);
    }
    if word == last_event(side) {
        return Ok(last_event_of(side));
    }
    Err(LineWhy::BadWord)
}

fn last_event(side: Side) -> &'static [u8]
    ensures { result.now ≡ last_event side }
{
    match side {
        Side::Entry => &b"Full"[..],
        Side::Exit => &b"Left"[..],
    }
}

fn last_event_of(side: Side) -> SensorEvent
    ensures { result ≡ last_event_of side }
{
    match side {
        Side::Entry => SensorEvent::Full,
        Side::Exit => SensorEvent::Left,
    }
}
