ghost use Rattle.std.specs.Prelude.{◌≡◌, true, false, IfErr, is_some};
ghost use Rattle.line_base.specs.Moment.{IsMomentMillis};
ghost use Rattle.node_core.specs.May.{may_do};
ghost use Rattle.hermes_machine.specs.Calls.{AnswersStep};
ghost use Rattle.hermes_machine.specs.Meanings.{HasText, Happens, happening_of, is_moment, made_by, may_happen, told_of, wants_text};
ghost use Rattle.hermes_machine.specs.Numbers.{answer_of, number_of_no};

use crate::answer::{BAD_INPUT, BAD_TEXT, DONE, MEMORY, number_of_no};
use crate::happening::{NoText, happen, happening_of};
use crate::input::{HermesInput, MOST_BYTES};
use crate::meaning::{Meaning, meaning_of};
use line_base::Moment;
use machine_port::{NotDone, Port};
use std::alloc::Global;

/// The first and the last millisecond of the clock.
const FIRST_MOMENT: i64 = -62_135_596_800_000;

const LAST_MOMENT: i64 = 253_402_300_799_999;

/// Whether it is a moment of the clock.
pub fn is_moment(now_ms: i64) -> bool
    ensures is { result ≡ is_moment now_ms }
    ensures within { result ≡ true → IsMomentMillis now_ms }
{
    FIRST_MOMENT <= now_ms && now_ms <= LAST_MOMENT
}

/// What is told.
fn told_of(input: &HermesInput, bytes: &[u8], now_ms: i64) -> Option<Meaning>
    ensures is { result ≡ told_of input.now bytes.now now_ms }
    ensures moment { is_some result ≡ true → IsMomentMillis now_ms }
{
    if bytes.len() > MOST_BYTES || !is_moment(now_ms) {
        return None;
    }
    meaning_of(input)
}

/// A machine is told of what happened: the answer of the call.
pub fn tell(alloc: Global, port: &mut Port, input: &HermesInput, bytes: &[u8], now_ms: i64) -> i32
    ensures { AnswersStep input.now bytes.entry now_ms port.old port.new result }
{
    match told_of(input, bytes, now_ms) {
        Some(meaning) => mean(alloc, port, meaning, bytes, Moment::of_millis(now_ms)),
        None => BAD_INPUT,
    }
}

/// What that means happens to the machine.
fn mean(alloc: Global, port: &mut Port, meaning: Meaning, bytes: &[u8], now: Moment) -> i32
    ensures bad_text { ¬ (HasText (wants_text meaning) bytes.now) → result ≡ BAD_TEXT }
    ensures no { port.old.spent ≡ false → HasText (wants_text meaning) bytes.now
        → IfErr (may_happen port.old (happening_of meaning bytes.entry))
        (λ why. ¬ (result ≡ MEMORY) → result ≡ number_of_no why) }
    ensures memory { HasText (wants_text meaning) bytes.now
        → may_happen port.old (happening_of meaning bytes.entry) ≡ may_do → ¬ (result ≡ DONE)
        → result ≡ MEMORY }
    ensures text { result ≡ DONE → HasText (wants_text meaning) bytes.now }
    ensures happens { result ≡ DONE
        → Happens (happening_of meaning bytes.entry) now port.old port.new }
    ensures stays { ¬ (result ≡ DONE) → ¬ (result ≡ MEMORY) → port.new ≡ port.old }
    ensures lost { result ≡ MEMORY → port.new.spent ≡ false → port.new ≡ port.old }
    ensures again { port.old.spent ≡ true → ¬ (result ≡ DONE) }
    ensures counted { port.old.spent ≡ false → port.new.spent ≡ true
        → port.new.made ≡ made_by (happening_of meaning bytes.entry) port.old.made }
    ensures still { port.old.spent ≡ true → port.new ≡ port.old }
{
    match happening_of(alloc, meaning, bytes) {
        Ok(happening) => answer_of(happen(port, happening, now)),
        Err(NoText::BadText) => BAD_TEXT,
        Err(NoText::Memory) => MEMORY,
    }
}

fn answer_of(done: Result<(), NotDone>) -> i32
    ensures { result ≡ answer_of done }
{
    match done {
        Ok(()) => DONE,
        Err(NotDone::No(why)) => number_of_no(why),
        Err(NotDone::Memory) => MEMORY,
    }
}
