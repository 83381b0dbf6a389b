ghost use Rattle.std.specs.Prelude.{◌≡◌, ℕ, List, true, false, Err, IfErr, IfOk, OnOk};
ghost use Rattle.std.specs.Borrow.{Bor};
ghost use Rattle.line_base.specs.Text.{IsText};
ghost use Rattle.node_core.specs.May.{may_do};
ghost use Rattle.node_core.specs.declared.input.Input.TheVariants as inputs;
ghost use Rattle.hermes_machine.specs.declared.happening.Happening.TheVariants as haps;
ghost use Rattle.hermes_machine.specs.Meanings.{HasText, Happens, happening_of, input_of, made_by, may_happen, wants_text};

use crate::meaning::Meaning;
use board_record::{BoardId, Sensed};
use hermes_vertical::Question;
use line_base::{Memory, Moment, Side, Text, TextError};
use machine_port::{NotDone, Port};
use node_core::Input;
use std::alloc::Global;

/// What happens to a machine.
#[derive(Drop)]
pub enum Happening<'a> {
    /// It is given an input.
    Given(Input<'a>),
    /// A sensor of it sees this.
    Sees(Sensed),
    /// The connection of this side is closed.
    Closes(Side),
}

/// Why nothing happens.
#[derive(Clone, Copy, Debug, PartialEq, Eq)]
pub enum NoText {
    /// The bytes are no text.
    BadText,
    Memory,
}

/// The text that these bytes are.
fn text_of(alloc: Global, bytes: &[u8]) -> Result<Text, NoText>
    ensures text { IfOk result (λ text. text ≡ bytes.now) }
    ensures is { OnOk result (IsText bytes.now) }
    ensures bad_text { ¬ (IsText bytes.now) → result ≡ Err NoText.BadText }
    ensures memory { IsText bytes.now → IfErr result (λ why. why ≡ NoText.Memory) }
{
    match Text::read(alloc, bytes) {
        Ok(text) => Ok(text),
        Err(TextError::Memory) => Err(NoText::Memory),
        Err(_) => Err(NoText::BadText),
    }
}

/// What happens, with the bytes of the call. `BadText` where it wants a text and they are none.
pub fn happening_of<'a>(
    alloc: Global,
    meaning: Meaning,
    bytes: &'a [u8],
) -> Result<Happening<'a>, NoText>
    ensures is { IfOk result (λ happening. happening ≡ happening_of meaning bytes.entry) }
    ensures text { OnOk result (HasText (wants_text meaning) bytes.now) }
    ensures bad_text { ¬ (HasText (wants_text meaning) bytes.now) → result ≡ Err NoText.BadText }
    ensures memory { HasText (wants_text meaning) bytes.now
        → IfErr result (λ why. why ≡ NoText.Memory) }
{
    if !wants_text(meaning) {
        return Ok(without_text(meaning, bytes));
    }
    Ok(with_text(meaning, text_of(alloc, bytes)?))
}

fn wants_text(meaning: Meaning) -> bool
    ensures { result ≡ wants_text meaning }
{
    match meaning {
        Meaning::InsertWith | Meaning::Query => true,
        Meaning::AskBarcode | Meaning::AskOrder | Meaning::AskPlace(_) => true,
        Meaning::Answer(_) => true,
        _ => false,
    }
}

/// What happens, where it wants this text.
fn with_text<'a>(meaning: Meaning, text: Text) -> Happening<'a>
    ensures { (bytes : Bor (List ℕ)) → wants_text meaning ≡ true → text ≡ bytes.now
        → result ≡ happening_of meaning bytes }
{
    match meaning {
        Meaning::InsertWith => Happening::Given(Input::Insert(Some(text))),
        Meaning::AskBarcode => asks(Question::Barcode(text)),
        Meaning::AskOrder => asks(Question::Order(text)),
        Meaning::AskPlace(slot) => asks(Question::Place {
            magazine: text,
            slot,
        }),
        Meaning::Answer(query) => Happening::Given(Input::Answer { query, order: text }),
        _ => Happening::Given(Input::Query(text)),
    }
}

fn asks<'a>(question: Question) -> Happening<'a>
    ensures { result ≡ haps.Given (inputs.Ask question) }
{
    Happening::Given(Input::Ask(question))
}

/// What happens, where it wants no text.
fn without_text<'a>(meaning: Meaning, bytes: &'a [u8]) -> Happening<'a>
    ensures { wants_text meaning ≡ false → result ≡ happening_of meaning bytes.entry }
{
    match meaning {
        Meaning::Closed(side) => Happening::Closes(side),
        Meaning::Sensed(sensed) => Happening::Sees(sensed),
        _ => Happening::Given(input_of(meaning, bytes)),
    }
}

fn input_of<'a>(meaning: Meaning, bytes: &'a [u8]) -> Input<'a>
    ensures { wants_text meaning ≡ false → result ≡ input_of meaning bytes.entry }
{
    match meaning {
        Meaning::Connected(Side::Entry) => Input::Connect,
        Meaning::Connected(Side::Exit) => Input::Accepted,
        Meaning::Second => Input::Second,
        Meaning::Bytes(side) => Input::Bytes(side, bytes),
        Meaning::Tick => Input::Tick,
        Meaning::Fault(side) => Input::Fault(side),
        Meaning::Will(side, on) => Input::Will(side, on),
        Meaning::Level(line, on) => Input::Level(line, on),
        Meaning::Insert => Input::Insert(None),
        Meaning::Remove(id) => Input::Remove(BoardId::of(id)),
        Meaning::Replace(id) => Input::Replace(BoardId::of(id)),
        Meaning::Mark(id, quality) => Input::Mark(BoardId::of(id), quality),
        Meaning::Shutdown => Input::Shutdown,
        Meaning::Forecast => Input::Forecast,
        Meaning::Supervise(on) => Input::Supervise(on),
        _ => Input::Nothing,
    }
}

/// The machine of a port does what is to be done as this happens: the answer of the call.
pub fn happen(port: &mut Port, happening: Happening<'_>, moment: Moment) -> Result<(), NotDone>
    ensures spent { port.old.spent ≡ true → result ≡ Err NotDone.Memory }
    ensures no { port.old.spent ≡ false → IfErr (may_happen port.old happening.entry)
        (λ why. result ≡ Err (NotDone.No why)) }
    ensures stays { IfErr result (λ why. ¬ (why ≡ NotDone.Memory) → port.new ≡ port.old) }
    ensures memory { port.old.spent ≡ false → may_happen port.old happening.entry ≡ may_do
        → IfErr result (λ why. why ≡ NotDone.Memory) }
    ensures lost { result ≡ Err NotDone.Memory → port.new.spent ≡ true }
    ensures counted { port.old.spent ≡ false → port.new.spent ≡ true
        → port.new.made ≡ made_by happening.entry port.old.made }
    ensures still { port.old.spent ≡ true → port.new ≡ port.old }
    ensures happens { OnOk result (Happens happening.entry moment port.old port.new) }
{
    match happening {
        Happening::Given(input) => port.step(&[], input, moment),
        Happening::Sees(sensed) => port.step(&[sensed], Input::Nothing, moment),
        Happening::Closes(side) => match port.close(side, moment) {
            Ok(()) => Ok(()),
            Err(Memory) => Err(NotDone::Memory),
        },
    }
}
