//! Inputs, by their tags.

ghost use Rattle.std.specs.Prelude.{◌≡◌, ◌≤◌, ◌==◌, ◌||◌, IfOk, true};
ghost use Rattle.book_entry.specs.Answers.{Reads};
ghost use Rattle.book_entry.specs.Kinds.{is_from, takes};
ghost use Rattle.book_entry.specs.Reading.{allowed, answer_in, bytes_in, fields_in, input_in, kind_in, level_in, mark_in, maybe_text_in, placed_in, question_in, side_in, flag_in, id_in, sub_in, text_in, will_in};
ghost use Rattle.book_entry.specs.declared.entry.OwnInput.TheVariants as inputs;
ghost use Rattle.book_entry.specs.declared.kind.InputKind.TheVariants as kinds;
ghost use Rattle.line_base.specs.Results.{mapped_ok};

use crate::entry::OwnInput;
use crate::fault::{EntryError, Fail};
use crate::kind::{InputKind, kind_of};
use crate::number::{behind, id_in, long_in, short_in};
use crate::parts::{flag_in, line_in, quality_in, side_in};
use crate::text::{maybe_text_in, own_in, question_in, text_in};
use board_record::BoardId;
use std::alloc::Global;

/// An input that is, with its tag, so many bytes.
#[tactic(auto, unfolding(crate::specs::Reading::input_in))]
pub fn input_in(alloc: Global, count: usize, bytes: &[u8]) -> Result<OwnInput, EntryError>
    requires { 1 ≤ count }
    ensures { Reads (input_in count bytes.now) result }
{
    let kind = kind_in(count - 1, bytes)?;
    fields_in(alloc, kind, count - 1, behind(bytes, 1))
}

/// The tag of an input whose fields are so many bytes.
fn kind_in(count: usize, bytes: &[u8]) -> Result<InputKind, Fail>
    ensures found { result ≡ kind_in count bytes.now }
    ensures takes { IfOk result (λ kind. takes kind count ≡ true) }
{
    match bytes {
        [] => Err(Fail::Short),
        [tag, ..] => allowed(count, kind_of(*tag)),
    }
}

fn allowed(count: usize, kind: Option<InputKind>) -> Result<InputKind, Fail>
    ensures found { result ≡ allowed count kind }
    ensures takes { IfOk result (λ kind. takes kind count ≡ true) }
{
    match kind {
        Some(kind) => {
            if kind.takes(count) {
                return Ok(kind);
            }
            Err(Fail::Bad)
        }
        None => Err(Fail::Bad),
    }
}

/// The fields of an input, which are so many bytes.
fn fields_in(
    alloc: Global,
    kind: InputKind,
    count: usize,
    bytes: &[u8],
) -> Result<OwnInput, EntryError>
    requires { takes kind count ≡ true }
    ensures { Reads (fields_in kind count bytes.now) result }
{
    match kind {
        InputKind::Nothing => Ok(OwnInput::Nothing),
        InputKind::Connect => Ok(OwnInput::Connect),
        InputKind::Accepted => Ok(OwnInput::Accepted),
        InputKind::Second => Ok(OwnInput::Second),
        InputKind::Bytes => bytes_in(alloc, count, bytes),
        InputKind::Notice => notice_in(bytes),
        InputKind::Tick => Ok(OwnInput::Tick),
        InputKind::Shutdown => Ok(OwnInput::Shutdown),
        InputKind::Fault => fault_in(bytes),
        InputKind::Will => will_in(bytes),
        InputKind::Level => level_in(bytes),
        InputKind::Insert => insert_in(alloc, count, bytes),
        InputKind::Remove => remove_in(bytes),
        InputKind::Replace => replace_in(bytes),
        InputKind::Mark => mark_in(bytes),
        InputKind::Forecast => Ok(OwnInput::Forecast),
        InputKind::Query => query_in(alloc, count, bytes),
        InputKind::Supervise => supervise_in(bytes),
        InputKind::Ask => ask_in(alloc, count, bytes),
        InputKind::Answer => answer_in(alloc, count, bytes),
        InputKind::Sub => sub_in(alloc, count, bytes),
    }
}

fn bytes_in(alloc: Global, count: usize, bytes: &[u8]) -> Result<OwnInput, EntryError>
    requires { takes kinds.Bytes count ≡ true }
    ensures { Reads (bytes_in count bytes.now) result }
{
    let side = side_in(bytes)?;
    let own = own_in(alloc, count - 1, behind(bytes, 1))?;
    Ok(OwnInput::Bytes(side, own))
}

fn notice_in(bytes: &[u8]) -> Result<OwnInput, EntryError>
    ensures { Reads (mapped_ok inputs.Notice (side_in bytes.now)) result }
{
    let side = side_in(bytes)?;
    Ok(OwnInput::Notice(side))
}

fn fault_in(bytes: &[u8]) -> Result<OwnInput, EntryError>
    ensures { Reads (mapped_ok inputs.Fault (side_in bytes.now)) result }
{
    let side = side_in(bytes)?;
    Ok(OwnInput::Fault(side))
}

fn will_in(bytes: &[u8]) -> Result<OwnInput, EntryError>
    ensures { Reads (will_in bytes.now) result }
{
    let side = side_in(bytes)?;
    let on = flag_in(behind(bytes, 1))?;
    Ok(OwnInput::Will(side, on))
}

fn level_in(bytes: &[u8]) -> Result<OwnInput, EntryError>
    ensures { Reads (level_in bytes.now) result }
{
    let line = line_in(bytes)?;
    let on = flag_in(behind(bytes, 1))?;
    Ok(OwnInput::Level(line, on))
}

fn insert_in(alloc: Global, count: usize, bytes: &[u8]) -> Result<OwnInput, EntryError>
    requires { takes kinds.Insert count ≡ true }
    ensures { Reads (mapped_ok inputs.Insert (maybe_text_in count bytes.now)) result }
{
    let barcode = maybe_text_in(alloc, count, bytes)?;
    Ok(OwnInput::Insert(barcode))
}

fn remove_in(bytes: &[u8]) -> Result<OwnInput, EntryError>
    ensures { Reads (mapped_ok inputs.Remove (id_in bytes.now)) result }
{
    let id = id_in(bytes)?;
    Ok(OwnInput::Remove(id))
}

fn replace_in(bytes: &[u8]) -> Result<OwnInput, EntryError>
    ensures { Reads (mapped_ok inputs.Replace (id_in bytes.now)) result }
{
    let id = id_in(bytes)?;
    Ok(OwnInput::Replace(id))
}

fn mark_in(bytes: &[u8]) -> Result<OwnInput, EntryError>
    ensures { Reads (mark_in bytes.now) result }
{
    let id = id_in(bytes)?;
    let quality = quality_in(behind(bytes, 16))?;
    Ok(OwnInput::Mark(id, quality))
}

fn query_in(alloc: Global, count: usize, bytes: &[u8]) -> Result<OwnInput, EntryError>
    requires { takes kinds.Query count ≡ true }
    ensures { Reads (mapped_ok inputs.Query (text_in count bytes.now)) result }
{
    let barcode = text_in(alloc, count, bytes)?;
    Ok(OwnInput::Query(barcode))
}

fn supervise_in(bytes: &[u8]) -> Result<OwnInput, EntryError>
    ensures { Reads (mapped_ok inputs.Supervise (flag_in bytes.now)) result }
{
    let on = flag_in(bytes)?;
    Ok(OwnInput::Supervise(on))
}

fn ask_in(alloc: Global, count: usize, bytes: &[u8]) -> Result<OwnInput, EntryError>
    requires { takes kinds.Ask count ≡ true }
    ensures { Reads (mapped_ok inputs.Ask (question_in count bytes.now)) result }
{
    let question = question_in(alloc, count, bytes)?;
    Ok(OwnInput::Ask(question))
}

fn answer_in(alloc: Global, count: usize, bytes: &[u8]) -> Result<OwnInput, EntryError>
    requires { takes kinds.Answer count ≡ true }
    ensures { Reads (answer_in count bytes.now) result }
{
    let query = long_in(bytes)?;
    let order = text_in(alloc, count - 8, behind(bytes, 8))?;
    Ok(OwnInput::Answer { query, order })
}

fn sub_in(alloc: Global, count: usize, bytes: &[u8]) -> Result<OwnInput, EntryError>
    requires { takes kinds.Sub count ≡ true }
    ensures { Reads (sub_in count bytes.now) result }
{
    let id = id_in(bytes)?;
    placed_in(alloc, id, count - 16, behind(bytes, 16))
}

fn placed_in(alloc: Global, id: BoardId, count: usize, bytes: &[u8]) -> Result<OwnInput, EntryError>
    requires { (count == 5 || is_from 7 1031 count) ≡ true }
    ensures { Reads (placed_in id count bytes.now) result }
{
    let pos = short_in(bytes)?;
    let barcode = maybe_text_in(alloc, count - 4, behind(bytes, 4))?;
    Ok(OwnInput::Sub { id, pos, barcode })
}
