//! What is told of acts and of how a machine stands.

use crate::ids;
use board_record::{BoardId, SubBoard, SubBoards};
use handover_in::Intake;
use handover_out::Outlet;
use hermes_horizontal::{Horizontal, Info, Message, Ping, write_horizontal};
use hermes_vertical::{Passage, Question, Vertical};
use line_base::{Memory, Quality, Side, Text, Transfer};
use node_core::{Act, Deed, Node, Outputs, SegmentLine, Setting, Signal};
use std::io;
use std::io::{ErrorKind, Write};

/// Appends the acts of a step.
pub fn tell_done(done: &Result<Outputs, Memory>, to: &mut Vec<u8>) -> io::Result<()> {
    to.write_all(b" |")?;
    match done {
        Ok(acts) => tell_acts(acts.list(), to),
        Err(_) => to.write_all(b" out of memory"),
    }
}

/// Appends the acts of a step, of each message that is sent its bytes.
pub fn tell_spelled(done: &Result<Outputs, Memory>, to: &mut Vec<u8>) -> io::Result<()> {
    to.write_all(b" |")?;
    match done {
        Ok(acts) => spell_acts(acts.list(), to),
        Err(_) => to.write_all(b" out of memory"),
    }
}

fn spell_acts(acts: &[Act], to: &mut Vec<u8>) -> io::Result<()> {
    for (place, act) in acts.iter().enumerate() {
        match act {
            Act::Sends(side, message) => spell_sent(place, *side, message, to)?,
            _ => tell_one(place, act, to)?,
        }
    }
    Ok(())
}

fn spell_sent(place: usize, side: Side, message: &Message, to: &mut Vec<u8>) -> io::Result<()> {
    if place > 0 {
        to.write_all(b",")?;
    }
    to.write_all(b" ")?;
    tell_side("sends", side, to)?;
    to.write_all(b" ")?;
    match write_horizontal(message, to) {
        Ok(()) => Ok(()),
        Err(Memory) => Err(io::Error::from(ErrorKind::OutOfMemory)),
    }
}

fn tell_acts(acts: &[Act], to: &mut Vec<u8>) -> io::Result<()> {
    for (place, act) in acts.iter().enumerate() {
        tell_one(place, act, to)?;
    }
    Ok(())
}

fn tell_one(place: usize, act: &Act, to: &mut Vec<u8>) -> io::Result<()> {
    if place > 0 {
        to.write_all(b",")?;
    }
    to.write_all(b" ")?;
    tell(act, to)
}

fn tell(act: &Act, to: &mut Vec<u8>) -> io::Result<()> {
    match act {
        Act::Reads(side, event) => {
            let side = word_of(*side);
            write!(to, "reads {side} {event:?}")
        }
        Act::Hears(side, message) => tell_message("hears", *side, message.body.what(), to),
        Act::Sends(side, message) => tell_message("sends", *side, message.body.what(), to),
        Act::Breaches(side, text) => tell_breach(*side, text, to),
        Act::Closes(side) => tell_side("closes", *side, to),
        Act::Notices(side) => tell_side("notices", *side, to),
        Act::Drive(side, true) => tell_drive(*side, "on", to),
        Act::Drive(side, false) => tell_drive(*side, "off", to),
        Act::Sets(Setting::Will(side, true)) => tell_side("go", *side, to),
        Act::Sets(Setting::Will(side, false)) => tell_side("hold", *side, to),
        Act::Deed(deed) => tell_deed(*deed, to),
        _ => tell_by_hand(act, to),
    }
}

fn tell_by_hand(act: &Act, to: &mut Vec<u8>) -> io::Result<()> {
    match act {
        Act::Connects => write!(to, "connects"),
        Act::Signals(signal, on) => tell_signal(*signal, *on, to),
        Act::Sets(Setting::Level(line, on)) => tell_level(*line, *on, to),
        Act::Inserts(id) => about("inserts", *id, to),
        Act::Removes(id) => about("removes", *id, to),
        Act::Replaces(old, new) => {
            about("replaces", *old, to)?;
            write!(to, " ")?;
            ids::tell(*new, to)
        }
        Act::Marks(id, quality) => {
            about("marks", *id, to)?;
            let quality = quality_of(*quality);
            write!(to, " {quality}")
        }
        Act::Subs { id, pos } => {
            about("subs", *id, to)?;
            write!(to, " {pos}")
        }
        Act::Gives { id, to: lane } => {
            about("gives", *id, to)?;
            write!(to, " {lane}")
        }
        Act::Gets { id } => about("gets", *id, to),
        _ => tell_supervised(act, to),
    }
}

fn tell_supervised(act: &Act, to: &mut Vec<u8>) -> io::Result<()> {
    match act {
        Act::Sets(Setting::Supervise(on)) => {
            let on = level_of(*on);
            write!(to, "supervise {on}")
        }
        Act::Tells(told) => tell_supervisor(&told.message().body, to),
        Act::Answered(query, order) => {
            write!(to, "answered {query}")?;
            tell_text(order, to)
        }
        _ => Ok(()),
    }
}

/// What a supervisor is told or asked.
fn tell_supervisor(body: &Vertical, to: &mut Vec<u8>) -> io::Result<()> {
    match body {
        Vertical::BoardArrived(passage) => tell_passage("arrived", passage, to),
        Vertical::BoardDeparted(passage) => tell_passage("departed", passage, to),
        Vertical::QueryWorkOrderInfo { query, question } => {
            write!(to, "asks {query}")?;
            tell_question(question, to)
        }
        _ => Ok(()),
    }
}

fn tell_passage(what: &str, passage: &Passage, to: &mut Vec<u8>) -> io::Result<()> {
    let how = passage.how;
    write!(to, "tells {what} {how:?}")?;
    tell_id(passage.id, to)?;
    tell_text(&passage.machine, to)?;
    let lane = passage.lane;
    write!(to, " {lane}")
}

fn tell_question(question: &Question, to: &mut Vec<u8>) -> io::Result<()> {
    match question {
        Question::Barcode(barcode) => {
            write!(to, " barcode")?;
            tell_text(barcode, to)
        }
        Question::Order(order) => {
            write!(to, " order")?;
            tell_text(order, to)
        }
        Question::Place { magazine, slot } => {
            write!(to, " place")?;
            tell_text(magazine, to)?;
            write!(to, " {slot}")
        }
    }
}

fn tell_signal(signal: Signal, on: bool, to: &mut Vec<u8>) -> io::Result<()> {
    let signal = match signal {
        Signal::EntryAvailable => "entry-available",
        Signal::EntryFailed => "entry-failed",
        Signal::ExitReady => "exit-ready",
    };
    let level = level_of(on);
    write!(to, "signals {signal} {level}")
}

fn tell_level(line: SegmentLine, on: bool, to: &mut Vec<u8>) -> io::Result<()> {
    let line = match line {
        SegmentLine::Ready => "ready",
        SegmentLine::Available => "available",
        SegmentLine::Failed => "failed",
    };
    let level = level_of(on);
    write!(to, "level {line} {level}")
}

fn level_of(on: bool) -> &'static str {
    if on { "on" } else { "off" }
}

fn quality_of(quality: Quality) -> &'static str {
    match quality {
        Quality::Unknown => "unknown",
        Quality::Good => "good",
        Quality::Failed => "failed",
    }
}

fn word_of(side: Side) -> &'static str {
    match side {
        Side::Entry => "in",
        Side::Exit => "out",
    }
}

fn tell_side(what: &str, side: Side, to: &mut Vec<u8>) -> io::Result<()> {
    let side = word_of(side);
    write!(to, "{what} {side}")
}

fn tell_drive(side: Side, level: &str, to: &mut Vec<u8>) -> io::Result<()> {
    let side = word_of(side);
    write!(to, "drive {side} {level}")
}

fn tell_breach(side: Side, text: &Text, to: &mut Vec<u8>) -> io::Result<()> {
    tell_side("breach", side, to)?;
    tell_text(text, to)
}

fn tell_text(text: &Text, to: &mut Vec<u8>) -> io::Result<()> {
    to.write_all(b" \"")?;
    to.write_all(text.bytes())?;
    to.write_all(b"\"")
}

fn about(what: &str, id: BoardId, to: &mut Vec<u8>) -> io::Result<()> {
    write!(to, "{what} ")?;
    ids::tell(id, to)
}

fn tell_deed(deed: Deed, to: &mut Vec<u8>) -> io::Result<()> {
    match deed {
        Deed::Opens(id) => about("opens", id, to),
        Deed::Refuses(id) => about("refuses", id, to),
        Deed::Leaves(id) => about("leaves", id, to),
        Deed::Returns(id) => about("returns", id, to),
        Deed::Loses(id) => about("loses", id, to),
        Deed::Starts(id) => about("starts", id, to),
        Deed::Settles(id) => about("settles", id, to),
        Deed::Drops(id) => about("drops", id, to),
    }
}

fn tell_message(what: &str, side: Side, body: &Horizontal, to: &mut Vec<u8>) -> io::Result<()> {
    tell_side(what, side, to)?;
    write!(to, " ")?;
    match body {
        Horizontal::Other(_) => write!(to, "Other"),
        _ => to.write_all(body.name()),
    }?;
    tell_contents(body, to)
}

fn tell_contents(body: &Horizontal, to: &mut Vec<u8>) -> io::Result<()> {
    match body {
        Horizontal::CheckAlive { ping, id } => tell_alive(*ping, id, to),
        Horizontal::Notification {
            code,
            severity,
            text,
        } => {
            let number = code.number;
            write!(to, " {number} {severity:?}")?;
            tell_text(text, to)
        }
        Horizontal::BoardAvailable(board) => {
            tell_id(board.id, to)?;
            tell_subs(&board.subs, to)
        }
        Horizontal::StartTransport { id } => tell_id(*id, to),
        Horizontal::StopTransport { state, id } => tell_end(*state, *id, to),
        Horizontal::TransportFinished { state, id } => tell_end(*state, *id, to),
        Horizontal::BoardForecast(info) => tell_info(info, to),
        Horizontal::SendBoardInfo(info) => tell_info(info, to),
        Horizontal::QueryBoardInfo { top, bottom } => {
            tell_barcode("top", top, to)?;
            tell_barcode("bottom", bottom, to)
        }
        _ => Ok(()),
    }
}

/// The id or `none`, then the quality and the top barcode where they are told, and the circuits.
fn tell_info(info: &Info, to: &mut Vec<u8>) -> io::Result<()> {
    match info.id {
        Some(id) => tell_id(id, to)?,
        None => write!(to, " none")?,
    }
    if let Some(quality) = info.quality {
        let quality = quality_of(quality);
        write!(to, " {quality}")?;
    }
    tell_barcode("top", &info.top, to)?;
    tell_subs(&info.subs, to)
}

fn tell_barcode(side: &str, barcode: &Option<Text>, to: &mut Vec<u8>) -> io::Result<()> {
    match barcode {
        Some(barcode) => {
            write!(to, " {side}")?;
            tell_text(barcode, to)
        }
        None => Ok(()),
    }
}

fn tell_alive(ping: Option<Ping>, id: &Option<Text>, to: &mut Vec<u8>) -> io::Result<()> {
    match ping {
        Some(Ping::Ask) => write!(to, " 1")?,
        Some(Ping::Answer) => write!(to, " 2")?,
        None => {}
    }
    match id {
        Some(id) => tell_text(id, to),
        None => Ok(()),
    }
}

fn tell_id(id: BoardId, to: &mut Vec<u8>) -> io::Result<()> {
    write!(to, " ")?;
    ids::tell(id, to)
}

fn tell_end(state: Transfer, id: BoardId, to: &mut Vec<u8>) -> io::Result<()> {
    let number = match state {
        Transfer::NotStarted => 1,
        Transfer::Incomplete => 2,
        Transfer::Complete => 3,
    };
    write!(to, " {number} ")?;
    ids::tell(id, to)
}

/// Appends what a machine keeps, how its sides stand, what it was told ahead, and whether it is
/// supervised.
pub fn stands(node: &Node, to: &mut Vec<u8>) -> io::Result<()> {
    write!(to, " || kept")?;
    for board in node.kept() {
        tell_id(board.id, to)?;
        tell_sign(board.quality, to)?;
        tell_subs(&board.subs, to)?;
    }
    let entry = node.state(Side::Entry);
    let exit = node.state(Side::Exit);
    write!(to, "; {entry:?}; {exit:?}")?;
    tell_forecasts(node.forecasts(), to)?;
    tell_supervision(node, to)
}

fn tell_sign(quality: Quality, to: &mut Vec<u8>) -> io::Result<()> {
    match quality {
        Quality::Unknown => Ok(()),
        Quality::Good => write!(to, "+"),
        Quality::Failed => write!(to, "-"),
    }
}

/// Appends the circuits of a panel, each as `:`, its place, whether it is good or failed, and its
/// barcode.
fn tell_subs(subs: &SubBoards, to: &mut Vec<u8>) -> io::Result<()> {
    for sub in subs.list() {
        tell_sub(sub, to)?;
    }
    Ok(())
}

fn tell_sub(sub: &SubBoard, to: &mut Vec<u8>) -> io::Result<()> {
    let pos = sub.pos;
    write!(to, ":{pos}")?;
    tell_sign(sub.state, to)?;
    match &sub.barcode {
        Some(barcode) => tell_text(barcode, to),
        None => Ok(()),
    }
}

/// Appends how a side of a machine stands, with the session and the half of a handover there.
pub fn stands_open(node: &Node, side: Side, to: &mut Vec<u8>) -> io::Result<()> {
    stands(node, to)?;
    let session = node.session(side).state();
    write!(to, "; {session:?}")?;
    match side {
        Side::Entry => tell_intake(node.intake(), to),
        Side::Exit => tell_outlet(node.outlet(), to),
    }
}

fn tell_intake(intake: &Intake, to: &mut Vec<u8>) -> io::Result<()> {
    let phase = intake.phase();
    write!(to, ", {phase:?}")?;
    if let Some(board) = intake.holds() {
        tell_id(board.id, to)?;
    }
    if let Some(own) = intake.own() {
        write!(to, " {own:?}")?;
    }
    tell_where(intake.heard(), "heard", to)?;
    if let Some(board) = intake.offer() {
        write!(to, " offer")?;
        tell_id(board.id, to)?;
    }
    tell_where(intake.ready(), "ready", to)
}

fn tell_outlet(outlet: &Outlet, to: &mut Vec<u8>) -> io::Result<()> {
    let phase = outlet.phase();
    write!(to, ", {phase:?}")?;
    if let Some(board) = outlet.holds() {
        tell_id(board.id, to)?;
    }
    tell_where(outlet.stopped(), "stopped", to)?;
    if let Some(id) = outlet.offered() {
        write!(to, " offered")?;
        tell_id(id, to)?;
    }
    tell_where(outlet.ready(), "ready", to)
}

/// Appends a word where something holds.
fn tell_where(holds: bool, word: &str, to: &mut Vec<u8>) -> io::Result<()> {
    if holds {
        write!(to, " {word}")?;
    }
    Ok(())
}

/// Whether it is supervised, and the answer to its first question.
fn tell_supervision(node: &Node, to: &mut Vec<u8>) -> io::Result<()> {
    if node.is_supervised() {
        write!(to, "; supervised")?;
    }
    match node.kept_answer(1) {
        Some(order) => {
            write!(to, "; answer 1")?;
            tell_text(order, to)
        }
        None => Ok(()),
    }
}

/// How many forecasts are kept, and the products of the first and the last.
fn tell_forecasts(forecasts: &[Info], to: &mut Vec<u8>) -> io::Result<()> {
    match (forecasts.first(), forecasts.last()) {
        (Some(first), Some(last)) => {
            let count = forecasts.len();
            write!(to, "; ahead {count}")?;
            tell_product(first, to)?;
            tell_product(last, to)
        }
        _ => Ok(()),
    }
}

fn tell_product(forecast: &Info, to: &mut Vec<u8>) -> io::Result<()> {
    match &forecast.product {
        Some(product) => tell_text(product, to),
        None => write!(to, " none"),
    }
}
