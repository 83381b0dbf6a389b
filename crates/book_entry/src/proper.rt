//! What the types of an entry's parts say of them. Each function states it of a kind of part: it
//! goes over the part, and changes nothing.

ghost use Rattle.std.specs.Prelude.{IfSome};
ghost use Rattle.line_base.specs.Text.{IsText};
ghost use Rattle.book_entry.specs.Spelling.{AreBytes, IsEntry, IsProperInput, IsProperQuestion, IsWritable};

use crate::entry::{Entry, OwnBytes, OwnInput};
use hermes_vertical::Question;
use line_base::Text;

/// An entry that can be written has a form.
pub fn entry_is_proper(entry: &Entry)
    requires { IsWritable entry.now }
    ensures { IsEntry entry.now }
{
    let _millis = entry.moment.millis();
    input_is_proper(&entry.input);
}

fn input_is_proper(input: &OwnInput)
    ensures { IsProperInput input.now }
{
    match input {
        OwnInput::Bytes(_, bytes) => bytes_are_proper(bytes),
        OwnInput::Insert(barcode) => maybe_text_is_proper(barcode),
        OwnInput::Remove(id) => {
            let _number = id.number();
        }
        OwnInput::Replace(id) => {
            let _number = id.number();
        }
        OwnInput::Mark(id, _) => {
            let _number = id.number();
        }
        OwnInput::Query(barcode) => {
            let _bytes = barcode.bytes();
        }
        OwnInput::Ask(question) => question_is_proper(question),
        OwnInput::Answer { query, order } => {
            let _query = *query;
            let _bytes = order.bytes();
        }
        OwnInput::Sub { id, pos, barcode } => {
            let _number = id.number();
            let _pos = *pos;
            maybe_text_is_proper(barcode);
        }
        _ => {}
    }
}

fn bytes_are_proper(bytes: &OwnBytes)
    ensures { AreBytes bytes.now }
{
    slice_is_proper(bytes.bytes());
}

/// Bytes are numbers below 256.
pub fn slice_is_proper(bytes: &[u8])
    ensures { AreBytes bytes.now }
{
    let _first = bytes.first();
}

fn maybe_text_is_proper(text: &Option<Text>)
    ensures { IfSome text.now IsText }
{
    if let Some(text) = text {
        let _bytes = text.bytes();
    }
}

fn question_is_proper(question: &Question)
    ensures { IsProperQuestion question.now }
{
    match question {
        Question::Barcode(text) => {
            let _bytes = text.bytes();
        }
        Question::Order(text) => {
            let _bytes = text.bytes();
        }
        Question::Place { magazine, slot } => {
            let _bytes = magazine.bytes();
            let _slot = *slot;
        }
    }
}
