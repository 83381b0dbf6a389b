//! Lines of a script: the answer is what a line asks for, or why it is refused.

use case_text::spell;
use hermes_vertical::Question;
use line_base::{Quality, SensorEvent, Side};
use line_script::{LaneLine, LineError, ScriptLine, read_line};
use smema_bridge::SegmentLine;
use std::alloc::Global;
use std::io;
use std::io::Write;

/// Appends what the line that a case spells asks for.
pub fn tell(alloc: Global, case: &str, to: &mut Vec<u8>) -> io::Result<()> {
    let mut line = Vec::new(alloc);
    spell(case, &mut line)?;
    match read_line(alloc, line.as_slice()) {
        Ok(line) => tell_lane_line(&line, to),
        Err(LineError::Refused(why)) => write!(to, "refused: {why}"),
        Err(LineError::Memory) => write!(to, "out of memory"),
    }
}

/// Appends what a line asks for, behind its lane where that isn't the first.
fn tell_lane_line(line: &LaneLine, to: &mut Vec<u8>) -> io::Result<()> {
    match line {
        LaneLine::On { lane: 1, line } => tell_line(line, to),
        LaneLine::On { lane, line } => {
            write!(to, "lane {lane}: ")?;
            tell_line(line, to)
        }
        LaneLine::Lanes { count } => write!(to, "lanes {count}"),
        LaneLine::Shift {
            machine,
            from,
            to: taking,
            id,
        } => write!(to, "shift {machine} from {from} to {taking} {id}"),
    }
}

/// Appends what a line asks for on its lane.
fn tell_line(line: &ScriptLine, to: &mut Vec<u8>) -> io::Result<()> {
    match line {
        ScriptLine::Blank => write!(to, "nothing"),
        ScriptLine::Machine { capacity, used } => write!(to, "machine {capacity} used {used}"),
        ScriptLine::Bridge { capacity, used } => write!(to, "bridge {capacity} used {used}"),
        ScriptLine::Insert { machine, barcode } => {
            write!(to, "insert {machine}")?;
            match barcode {
                Some(text) => tell_barcode(text.bytes(), to),
                None => Ok(()),
            }
        }
        ScriptLine::Remove { machine, id } => write!(to, "remove {machine} {id}"),
        ScriptLine::Replace { machine, id } => write!(to, "replace {machine} {id}"),
        ScriptLine::Sense { machine } => write!(to, "sense {machine}"),
        ScriptLine::Begin { gap } => write!(to, "begin {gap}"),
        ScriptLine::Left { gap } => write!(to, "left {gap}"),
        ScriptLine::Enter { gap } => write!(to, "in {gap}"),
        ScriptLine::Back { gap } => write!(to, "back {gap}"),
        ScriptLine::HandIn { gap } => write!(to, "hand-in {gap}"),
        ScriptLine::Take { gap } => write!(to, "take {gap}"),
        ScriptLine::Show => write!(to, "show"),
        _ => tell_event(line, to),
    }
}

/// Appends what a line of machines asks for.
fn tell_event(line: &ScriptLine, to: &mut Vec<u8>) -> io::Result<()> {
    match line {
        ScriptLine::Mark {
            machine,
            id,
            quality,
        } => {
            let quality = quality_word(*quality);
            write!(to, "mark {machine} {id} {quality}")
        }
        ScriptLine::Sub {
            machine,
            id,
            pos,
            barcode,
        } => {
            write!(to, "sub {machine} {id} {pos}")?;
            match barcode {
                Some(text) => tell_barcode(text.bytes(), to),
                None => Ok(()),
            }
        }
        ScriptLine::Hold { machine, side } => tell_side("hold", *machine, *side, to),
        ScriptLine::Go { machine, side } => tell_side("go", *machine, *side, to),
        ScriptLine::Shutdown { machine } => write!(to, "shutdown {machine}"),
        ScriptLine::Stop { machine } => write!(to, "stop {machine}"),
        ScriptLine::Tick { machine } => write!(to, "tick {machine}"),
        ScriptLine::Fault { machine, side } => tell_side("fault", *machine, *side, to),
        ScriptLine::Lie { machine, sensed } => {
            tell_side("lie", *machine, sensed.side, to)?;
            let event = event_word(sensed.event);
            write!(to, " {event}")
        }
        ScriptLine::Signal { machine, line, on } => {
            let signal = signal_word(*line);
            write!(to, "signal {machine} {signal} {on}")
        }
        ScriptLine::Unseen { machine, side } => tell_side("unseen", *machine, *side, to),
        _ => tell_link(line, to),
    }
}

/// Appends what a line of links asks for.
fn tell_link(line: &ScriptLine, to: &mut Vec<u8>) -> io::Result<()> {
    match line {
        ScriptLine::Connect { machine } => write!(to, "connect {machine}"),
        ScriptLine::Flow {
            machine,
            side,
            bytes,
        } => {
            tell_side("flow", *machine, *side, to)?;
            match bytes {
                Some(bytes) => write!(to, " {bytes}"),
                None => Ok(()),
            }
        }
        ScriptLine::Notice { machine, side } => tell_side("notice", *machine, *side, to),
        ScriptLine::Cut { gap } => write!(to, "cut {gap}"),
        ScriptLine::Spoil { machine, side } => tell_side("spoil", *machine, *side, to),
        ScriptLine::Forecast { machine } => write!(to, "forecast {machine}"),
        ScriptLine::Query { machine, barcode } => {
            write!(to, "query {machine}")?;
            tell_barcode(barcode.bytes(), to)
        }
        _ => tell_supervised(line, to),
    }
}

/// Appends what a line of a supervised machine asks for.
fn tell_supervised(line: &ScriptLine, to: &mut Vec<u8>) -> io::Result<()> {
    match line {
        ScriptLine::Supervise { machine } => write!(to, "supervise {machine}"),
        ScriptLine::Ask { machine, question } => {
            write!(to, "ask {machine}")?;
            tell_question(question, to)
        }
        ScriptLine::Answer {
            machine,
            query,
            order,
        } => {
            write!(to, "answer {machine} {query}")?;
            tell_text("order", order.bytes(), to)
        }
        _ => Ok(()),
    }
}

fn tell_question(question: &Question, to: &mut Vec<u8>) -> io::Result<()> {
    match question {
        Question::Barcode(barcode) => tell_barcode(barcode.bytes(), to),
        Question::Order(order) => tell_text("order", order.bytes(), to),
        Question::Place { magazine, slot } => {
            tell_text("place", magazine.bytes(), to)?;
            write!(to, " slot {slot}")
        }
    }
}

fn tell_side(word: &str, machine: u32, side: Side, to: &mut Vec<u8>) -> io::Result<()> {
    let side = side_word(side);
    write!(to, "{word} {machine} {side}")
}

fn side_word(side: Side) -> &'static str {
    match side {
        Side::Entry => "in",
        Side::Exit => "out",
    }
}

fn quality_word(quality: Quality) -> &'static str {
    match quality {
        Quality::Unknown => "unknown",
        Quality::Good => "good",
        Quality::Failed => "failed",
    }
}

fn event_word(event: SensorEvent) -> &'static str {
    match event {
        SensorEvent::Begun => "Begun",
        SensorEvent::Left => "Left",
        SensorEvent::Full => "Full",
        SensorEvent::Back => "Back",
        SensorEvent::Taken => "Taken",
    }
}

fn signal_word(line: SegmentLine) -> &'static str {
    match line {
        SegmentLine::Ready => "ready",
        SegmentLine::Available => "available",
        SegmentLine::Failed => "failed",
    }
}

fn tell_barcode(barcode: &[u8], to: &mut Vec<u8>) -> io::Result<()> {
    tell_text("barcode", barcode, to)
}

fn tell_text(word: &str, text: &[u8], to: &mut Vec<u8>) -> io::Result<()> {
    write!(to, " {word} ")?;
    Ok(to.extend_from_slice(text)?)
}
