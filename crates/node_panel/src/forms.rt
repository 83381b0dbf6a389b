//! One reader for each form of line, by what stands behind its first word.

ghost use Rattle.std.specs.Prelude.{◌≡◌, ◌∷◌, [], map};
ghost use Rattle.line_script.specs.Words.{Reads};
ghost use Rattle.node_panel.specs.Panel.{insert_of, with_id, with_side, mark_of, sub_of, sense_of, signal_of, query_of, text_asked, place_asked, ask_of, bare, asked_of, asked_of_sides, asked_of_connections};
ghost use Rattle.node_panel.specs.declared.line.PanelLine.TheVariants as lines;

use crate::line::PanelLine;
use crate::words::{event_of, id_of, quality_of, side_of};
use board_record::Sensed;
use hermes_vertical::Question;
use line_script::words::{
    asked_by, barcode, literal, number, question, segment_line, switch, token,
};
use line_script::{LineError, LineWhy};
use std::alloc::Global;

/// The last slot of a magazine, of nine digits.
const MOST_SLOT: u64 = 999_999_999;

/// The last place of a circuit on a panel, of nine digits.
const MOST_POS: u64 = 999_999_999;

/// The line that a first word and those behind it ask for.
pub fn asked_of(alloc: Global, first: &[u8], words: &[&[u8]]) -> Result<PanelLine, LineError>
    ensures { Reads (asked_of first.now (map (λ word. word.now) words.now)) result }
{
    if first == &b"insert"[..] {
        return insert(alloc, words);
    }
    if first == &b"query"[..] {
        return query(alloc, words);
    }
    if first == &b"ask"[..] {
        return ask(alloc, words);
    }
    if first == &b"remove"[..] {
        return refused(remove(words));
    }
    if first == &b"replace"[..] {
        return refused(replace(words));
    }
    if first == &b"mark"[..] {
        return refused(mark(words));
    }
    if first == &b"sub"[..] {
        return sub(alloc, words);
    }
    refused(asked_of_sides(first, words))
}

fn refused(line: Result<PanelLine, LineWhy>) -> Result<PanelLine, LineError>
    ensures { Reads line result }
{
    match line {
        Ok(line) => Ok(line),
        Err(why) => Err(LineError::Refused(why)),
    }
}

fn asked_of_sides(first: &[u8], words: &[&[u8]]) -> Result<PanelLine, LineWhy>
    ensures { result ≡ asked_of_sides first.now (map (λ word. word.now) words.now) }
{
    if first == &b"hold"[..] {
        return hold(words);
    }
    if first == &b"go"[..] {
        return go(words);
    }
    if first == &b"fault"[..] {
        return fault(words);
    }
    if first == &b"sense"[..] {
        return sense(words);
    }
    if first == &b"signal"[..] {
        return signal(words);
    }
    asked_of_connections(first, words)
}

fn asked_of_connections(first: &[u8], words: &[&[u8]]) -> Result<PanelLine, LineWhy>
    ensures { result ≡ asked_of_connections first.now (map (λ word. word.now) words.now) }
{
    if first == &b"connect"[..] {
        return bare(PanelLine::Connect, words);
    }
    if first == &b"shutdown"[..] {
        return bare(PanelLine::Shutdown, words);
    }
    if first == &b"tick"[..] {
        return bare(PanelLine::Tick, words);
    }
    if first == &b"forecast"[..] {
        return bare(PanelLine::Forecast, words);
    }
    if first == &b"show"[..] {
        return bare(PanelLine::Show, words);
    }
    if first == &b"end"[..] {
        return bare(PanelLine::End, words);
    }
    Err(LineWhy::UnknownWord)
}

fn bare(line: PanelLine, words: &[&[u8]]) -> Result<PanelLine, LineWhy>
    ensures { result ≡ bare line (map (λ word. word.now) words.now) }
{
    match words {
        [] => Ok(line),
        _ => Err(LineWhy::WrongCount),
    }
}

fn insert(alloc: Global, words: &[&[u8]]) -> Result<PanelLine, LineError>
    ensures { Reads (insert_of (map (λ word. word.now) words.now)) result }
{
    match words {
        [] => Ok(PanelLine::Insert { barcode: None }),
        [barcode] => match token(alloc, barcode) {
            Ok(barcode) => Ok(PanelLine::Insert {
                barcode: Some(barcode),
            }),
            Err(error) => Err(error),
        },
        _ => Err(LineError::Refused(LineWhy::WrongCount)),
    }
}

fn query(alloc: Global, words: &[&[u8]]) -> Result<PanelLine, LineError>
    ensures { Reads (query_of (map (λ word. word.now) words.now)) result }
{
    match words {
        [barcode] => match token(alloc, barcode) {
            Ok(barcode) => Ok(PanelLine::Query { barcode }),
            Err(error) => Err(error),
        },
        _ => Err(LineError::Refused(LineWhy::WrongCount)),
    }
}

fn ask(alloc: Global, words: &[&[u8]]) -> Result<PanelLine, LineError>
    ensures { Reads (ask_of (map (λ word. word.now) words.now)) result }
{
    match words {
        [word, text] => ask_by(alloc, word, text),
        [word, magazine, slot] => ask_place(alloc, word, magazine, slot),
        _ => Err(LineError::Refused(LineWhy::WrongCount)),
    }
}

/// `ask barcode w` and `ask order w`.
fn ask_by(alloc: Global, word: &[u8], text: &[u8]) -> Result<PanelLine, LineError>
    ensures { Reads (text_asked word.now text.now) result }
{
    let by = match asked_by(word) {
        Ok(by) => by,
        Err(why) => return Err(LineError::Refused(why)),
    };
    match token(alloc, text) {
        Ok(text) => Ok(PanelLine::Ask {
            question: question(by, text),
        }),
        Err(error) => Err(error),
    }
}

/// `ask place w s`.
fn ask_place(
    alloc: Global,
    word: &[u8],
    magazine: &[u8],
    slot: &[u8],
) -> Result<PanelLine, LineError>
    ensures { Reads (place_asked word.now magazine.now slot.now) result }
{
    if let Err(why) = literal(word, b"place") {
        return Err(LineError::Refused(why));
    }
    let magazine = match token(alloc, magazine) {
        Ok(magazine) => magazine,
        Err(error) => return Err(error),
    };
    let slot = match number(slot, 0, MOST_SLOT) {
        Ok(slot) => slot as u32,
        Err(why) => return Err(LineError::Refused(why)),
    };
    Ok(PanelLine::Ask {
        question: Question::Place { magazine, slot },
    })
}

fn remove(words: &[&[u8]]) -> Result<PanelLine, LineWhy>
    ensures { result ≡ with_id lines.Remove (map (λ word. word.now) words.now) }
{
    match words {
        [word] => {
            let id = id_of(word)?;
            Ok(PanelLine::Remove { id })
        }
        _ => Err(LineWhy::WrongCount),
    }
}

fn replace(words: &[&[u8]]) -> Result<PanelLine, LineWhy>
    ensures { result ≡ with_id lines.Replace (map (λ word. word.now) words.now) }
{
    match words {
        [word] => {
            let id = id_of(word)?;
            Ok(PanelLine::Replace { id })
        }
        _ => Err(LineWhy::WrongCount),
    }
}

fn mark(words: &[&[u8]]) -> Result<PanelLine, LineWhy>
    ensures { result ≡ mark_of (map (λ word. word.now) words.now) }
{
    match words {
        [id, quality] => {
            let id = id_of(id)?;
            let quality = quality_of(quality)?;
            Ok(PanelLine::Mark { id, quality })
        }
        _ => Err(LineWhy::WrongCount),
    }
}

fn sub(alloc: Global, words: &[&[u8]]) -> Result<PanelLine, LineError>
    ensures { Reads (sub_of (map (λ word. word.now) words.now)) result }
{
    match words {
        [id, pos, barcode] => sub_board(alloc, id, pos, barcode),
        _ => Err(LineError::Refused(LineWhy::WrongCount)),
    }
}

fn sub_board(
    alloc: Global,
    id: &[u8],
    pos: &[u8],
    spelled_barcode: &[u8],
) -> Result<PanelLine, LineError>
    ensures { Reads (sub_of (id.now ∷ pos.now ∷ spelled_barcode.now ∷ [])) result }
{
    let id = match id_of(id) {
        Ok(id) => id,
        Err(why) => return Err(LineError::Refused(why)),
    };
    let pos = match number(pos, 0, MOST_POS) {
        Ok(pos) => pos as u32,
        Err(why) => return Err(LineError::Refused(why)),
    };
    match barcode(alloc, spelled_barcode) {
        Ok(barcode) => Ok(PanelLine::Sub { id, pos, barcode }),
        Err(error) => Err(error),
    }
}

fn hold(words: &[&[u8]]) -> Result<PanelLine, LineWhy>
    ensures { result ≡ with_side lines.Hold (map (λ word. word.now) words.now) }
{
    match words {
        [word] => {
            let side = side_of(word)?;
            Ok(PanelLine::Hold { side })
        }
        _ => Err(LineWhy::WrongCount),
    }
}

fn go(words: &[&[u8]]) -> Result<PanelLine, LineWhy>
    ensures { result ≡ with_side lines.Go (map (λ word. word.now) words.now) }
{
    match words {
        [word] => {
            let side = side_of(word)?;
            Ok(PanelLine::Go { side })
        }
        _ => Err(LineWhy::WrongCount),
    }
}

fn fault(words: &[&[u8]]) -> Result<PanelLine, LineWhy>
    ensures { result ≡ with_side lines.Fault (map (λ word. word.now) words.now) }
{
    match words {
        [word] => {
            let side = side_of(word)?;
            Ok(PanelLine::Fault { side })
        }
        _ => Err(LineWhy::WrongCount),
    }
}

fn sense(words: &[&[u8]]) -> Result<PanelLine, LineWhy>
    ensures { result ≡ sense_of (map (λ word. word.now) words.now) }
{
    match words {
        [side, event] => {
            let side = side_of(side)?;
            let event = event_of(side, event)?;
            Ok(PanelLine::Sense {
                sensed: Sensed { side, event },
            })
        }
        _ => Err(LineWhy::WrongCount),
    }
}

fn signal(words: &[&[u8]]) -> Result<PanelLine, LineWhy>
    ensures { result ≡ signal_of (map (λ word. word.now) words.now) }
{
    match words {
        [line, on] => {
            let line = segment_line(line)?;
            let on = switch(on)?;
            Ok(PanelLine::Signal { line, on })
        }
        _ => Err(LineWhy::WrongCount),
    }
}
