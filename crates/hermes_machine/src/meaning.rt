ghost use Rattle.std.specs.Prelude.{◌≡◌};
ghost use Rattle.hermes_machine.specs.Meanings.{ask_of, bridge_level, id_of, insert_of, kind_of, mark_of, meaning_of, of_side, second_at, seen, sensed_at, supervise_of, will_of};
ghost use Rattle.hermes_machine.specs.Numbers.{level_of, quality_of, seen_at, side_of, signal_of};

use crate::input::{HermesInput, INPUT_BYTES};
use board_record::Sensed;
use line_base::{Quality, SensorEvent, Side};
use smema_bridge::SegmentLine;

/// What an input means.
#[derive(Clone, Copy, Debug, PartialEq, Eq)]
pub enum Meaning {
    /// Nothing but what is due happens.
    Nothing,
    /// A connection is made or accepted at this side.
    Connected(Side),
    /// A second one is accepted at the exit.
    Second,
    /// The bytes of the call came to this side.
    Bytes(Side),
    /// The connection of this side is closed.
    Closed(Side),
    /// The clock ticks.
    Tick,
    /// A sensor saw this.
    Sensed(Sensed),
    /// The drive of this side fails.
    Fault(Side),
    /// From now on boards are handed over at this side, or not.
    Will(Side, bool),
    /// This signal of a bridge's segment has this level now.
    Level(SegmentLine, bool),
    /// A board is put in by hand.
    Insert,
    /// And its top barcode is the text of the call's bytes.
    InsertWith,
    /// The board whose id is this number is taken out by hand.
    Remove(u128),
    /// Another board is put into the place of the one whose id is this number.
    Replace(u128),
    /// The board whose id is this number has this quality.
    Mark(u128, Quality),
    /// Both connections are to end.
    Shutdown,
    /// The downstream neighbour is told what board comes next.
    Forecast,
    /// The upstream neighbour is asked for the board with the barcode that the bytes are.
    Query,
    /// The supervisor is asked for the work order of the board with that barcode.
    AskBarcode,
    /// For the work order with the id that the bytes are.
    AskOrder,
    /// For that of this slot of the magazine that the bytes are.
    AskPlace(u32),
    /// From now on the machine is supervised, or not.
    Supervise(bool),
    /// The question of this number is answered by the work order that the bytes are.
    Answer(u64),
}

fn side_of(number: u32) -> Option<Side>
    ensures { result ≡ side_of number }
{
    match number {
        0 => Some(Side::Entry),
        1 => Some(Side::Exit),
        _ => None,
    }
}

fn level_of(number: u32) -> Option<bool>
    ensures { result ≡ level_of number }
{
    match number {
        0 => Some(false),
        1 => Some(true),
        _ => None,
    }
}

fn seen_at(side: Side, number: u32) -> Option<SensorEvent>
    ensures { result ≡ seen_at side number }
{
    match (side, number) {
        (_, 0) => Some(SensorEvent::Begun),
        (Side::Exit, 1) => Some(SensorEvent::Left),
        (Side::Entry, 2) => Some(SensorEvent::Full),
        (_, 3) => Some(SensorEvent::Back),
        (_, 4) => Some(SensorEvent::Taken),
        _ => None,
    }
}

fn signal_of(number: u32) -> Option<SegmentLine>
    ensures { result ≡ signal_of number }
{
    match number {
        0 => Some(SegmentLine::Ready),
        1 => Some(SegmentLine::Available),
        2 => Some(SegmentLine::Failed),
        _ => None,
    }
}

fn quality_of(number: u32) -> Option<Quality>
    ensures { result ≡ quality_of number }
{
    match number {
        0 => Some(Quality::Unknown),
        1 => Some(Quality::Good),
        2 => Some(Quality::Failed),
        _ => None,
    }
}

fn sensed_at(side: Side, number: u32) -> Option<Meaning>
    ensures { result ≡ sensed_at side number }
{
    match seen_at(side, number) {
        Some(event) => Some(Meaning::Sensed(Sensed { side, event })),
        None => None,
    }
}

fn seen(side: Option<Side>, number: u32) -> Option<Meaning>
    ensures { result ≡ seen side number }
{
    match side {
        Some(side) => sensed_at(side, number),
        None => None,
    }
}

fn will_of(side: Option<Side>, on: Option<bool>) -> Option<Meaning>
    ensures { result ≡ will_of side on }
{
    match (side, on) {
        (Some(side), Some(on)) => Some(Meaning::Will(side, on)),
        _ => None,
    }
}

fn bridge_level(line: Option<SegmentLine>, on: Option<bool>) -> Option<Meaning>
    ensures { result ≡ bridge_level line on }
{
    match (line, on) {
        (Some(line), Some(on)) => Some(Meaning::Level(line, on)),
        _ => None,
    }
}

fn second_at(side: Option<Side>) -> Option<Meaning>
    ensures { result ≡ second_at side }
{
    match side {
        Some(Side::Exit) => Some(Meaning::Second),
        Some(Side::Entry) | None => None,
    }
}

fn insert_of(with: Option<bool>) -> Option<Meaning>
    ensures { result ≡ insert_of with }
{
    match with {
        Some(false) => Some(Meaning::Insert),
        Some(true) => Some(Meaning::InsertWith),
        None => None,
    }
}

fn mark_of(id: u128, quality: Option<Quality>) -> Option<Meaning>
    ensures { result ≡ mark_of id quality }
{
    match quality {
        Some(quality) => Some(Meaning::Mark(id, quality)),
        None => None,
    }
}

fn ask_of(by: u32, slot: u32) -> Option<Meaning>
    ensures { result ≡ ask_of by slot }
{
    match by {
        0 => Some(Meaning::AskBarcode),
        1 => Some(Meaning::AskOrder),
        2 => Some(Meaning::AskPlace(slot)),
        _ => None,
    }
}

fn supervise_of(on: Option<bool>) -> Option<Meaning>
    ensures { result ≡ supervise_of on }
{
    match on {
        Some(on) => Some(Meaning::Supervise(on)),
        None => None,
    }
}

/// What an input does at this side, where it is one.
fn of_side(kind: u32, side: Option<Side>) -> Option<Meaning>
    ensures { result ≡ of_side kind side }
{
    match (kind, side) {
        (1, Some(side)) => Some(Meaning::Connected(side)),
        (3, Some(side)) => Some(Meaning::Bytes(side)),
        (4, Some(side)) => Some(Meaning::Closed(side)),
        (7, Some(side)) => Some(Meaning::Fault(side)),
        _ => None,
    }
}

fn id_of(input: &HermesInput) -> u128
    ensures { result ≡ id_of input.now }
{
    u128::from_be_bytes(input.id)
}

fn kind_of(input: &HermesInput) -> Option<Meaning>
    ensures { result ≡ kind_of input.now }
{
    let side = side_of(input.side);
    match input.kind {
        0 => Some(Meaning::Nothing),
        2 => second_at(side),
        5 => Some(Meaning::Tick),
        6 => seen(side, input.what),
        8 => will_of(side, level_of(input.what)),
        9 => bridge_level(signal_of(input.side), level_of(input.what)),
        10 => insert_of(level_of(input.what)),
        11 => Some(Meaning::Remove(id_of(input))),
        12 => Some(Meaning::Replace(id_of(input))),
        13 => mark_of(id_of(input), quality_of(input.what)),
        14 => Some(Meaning::Shutdown),
        15 => Some(Meaning::Forecast),
        16 => Some(Meaning::Query),
        17 => ask_of(input.what, input.slot),
        18 => supervise_of(level_of(input.what)),
        19 => Some(Meaning::Answer(input.query)),
        kind => of_side(kind, side),
    }
}

/// What an input means. `None` where it says another size than its own, or a number is out of its
/// range.
pub fn meaning_of(input: &HermesInput) -> Option<Meaning>
    ensures { result ≡ meaning_of input.now }
{
    if input.size != INPUT_BYTES || input.zero != 0 {
        return None;
    }
    kind_of(input)
}
