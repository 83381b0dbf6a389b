use board_record::BoardId;
use hermes_vertical::Question;
use line_base::{Quality, SensorEvent, Side, Text};
use line_script::LineError;
use node_panel::PanelLine;
use std::alloc::{AllocError, Global};
use std::str;

/// What was read, as text.
pub fn told_of(alloc: Global, read: &Result<PanelLine, LineError>) -> Result<String, AllocError> {
    match read {
        Ok(line) => told_line(alloc, line),
        Err(LineError::Refused(why)) => format!(in alloc; "refused: {why}"),
        Err(LineError::Memory) => Err(AllocError),
    }
}

fn told_line(alloc: Global, line: &PanelLine) -> Result<String, AllocError> {
    match line {
        PanelLine::Insert { barcode } => told_insert(alloc, barcode),
        PanelLine::Remove { id } => told_board(alloc, "remove", *id),
        PanelLine::Replace { id } => told_board(alloc, "replace", *id),
        PanelLine::Mark { id, quality } => told_mark(alloc, *id, *quality),
        PanelLine::Sub { id, pos, barcode } => told_sub(alloc, *id, *pos, barcode),
        PanelLine::Hold { side } => told_side(alloc, "hold", *side),
        PanelLine::Go { side } => told_side(alloc, "go", *side),
        PanelLine::Fault { side } => told_side(alloc, "fault", *side),
        PanelLine::Sense { sensed } => told_sense(alloc, sensed.side, sensed.event),
        PanelLine::Signal { line, on } => format!(in alloc; "signal {line:?} {on}"),
        PanelLine::Query { barcode } => told_text(alloc, "query", barcode),
        PanelLine::Ask { question } => told_question(alloc, question),
        line => String::from_str(alloc, bare_word(line)),
    }
}

fn bare_word(line: &PanelLine) -> &'static str {
    match line {
        PanelLine::Blank => "blank",
        PanelLine::Connect => "connect",
        PanelLine::Shutdown => "shutdown",
        PanelLine::Tick => "tick",
        PanelLine::Forecast => "forecast",
        PanelLine::Show => "show",
        PanelLine::End => "end",
        _ => "other",
    }
}

fn told_insert(alloc: Global, barcode: &Option<Text>) -> Result<String, AllocError> {
    match barcode {
        Some(barcode) => told_text(alloc, "insert", barcode),
        None => String::from_str(alloc, "insert"),
    }
}

fn told_sub(
    alloc: Global,
    id: BoardId,
    pos: u32,
    barcode: &Option<Text>,
) -> Result<String, AllocError> {
    match barcode {
        Some(barcode) => {
            let text = str::from_utf8(barcode.bytes()).unwrap_or("no text");
            format!(in alloc; "sub {id} {pos} {text}")
        }
        None => format!(in alloc; "sub {id} {pos}"),
    }
}

fn told_text(alloc: Global, word: &str, barcode: &Text) -> Result<String, AllocError> {
    let text = str::from_utf8(barcode.bytes()).unwrap_or("no text");
    format!(in alloc; "{word} {text}")
}

fn told_question(alloc: Global, question: &Question) -> Result<String, AllocError> {
    match question {
        Question::Barcode(barcode) => told_text(alloc, "ask barcode", barcode),
        Question::Order(order) => told_text(alloc, "ask order", order),
        Question::Place { magazine, slot } => {
            let text = str::from_utf8(magazine.bytes()).unwrap_or("no text");
            format!(in alloc; "ask place {text} slot {slot}")
        }
    }
}

fn told_board(alloc: Global, word: &str, id: BoardId) -> Result<String, AllocError> {
    format!(in alloc; "{word} {id}")
}

fn told_mark(alloc: Global, id: BoardId, quality: Quality) -> Result<String, AllocError> {
    format!(in alloc; "mark {id} {quality:?}")
}

fn told_side(alloc: Global, word: &str, side: Side) -> Result<String, AllocError> {
    format!(in alloc; "{word} {side:?}")
}

fn told_sense(alloc: Global, side: Side, event: SensorEvent) -> Result<String, AllocError> {
    format!(in alloc; "sense {side:?} {event:?}")
}
