//! The made script of a number: how its report ends, and the fold of the whole.

ghost use Rattle.std.specs.Prelude.{◌≡◌, ◌≤◌, ◌<◌, ℕ, [], false, IfOk, IfSome, OnOk};
ghost use Rattle.law_lanes.specs.Alone.{on_first};
ghost use Rattle.law_lanes.specs.Lanes.{lines_of, no_lanes};
ghost use Rattle.line_script.specs.Ranges.{IsWithin};
ghost use Rattle.made_script.specs.Fold.{fold_from};
ghost use Rattle.made_script.specs.Script.{made_script};
ghost use Rattle.line_status.specs.Status.{HasCauses};
ghost use Rattle.line_commands.specs.Making.{IsFolding, IsMakeStatus, IsMakeText, IsLastLine, Makes, made_number, number_behind};
ghost use Rattle.line_commands.specs.Reader.{DoesAsked};

use crate::script_run::ScriptRun;
use line_base::{Memory, Word};
use line_outside::{Pushed, Sink, push_all};
use line_script::words::number;
use line_script::{LaneLine, ScriptLine};
use line_status::{PIECE_BYTES, Status};
use made_script::{MadeScript, folded};
use std::alloc::Global;
use std::io::Write;

/// The most boards of a made script.
const MOST_BOARDS: u64 = 50_000;

/// The number behind the word `make`, where the words are these two.
pub fn made_number(words: &[Word]) -> Option<u32>
    ensures number { result ≡ made_number words.now }
    ensures few { IfSome result (λ number. number ≤ 50000) }
{
    match words {
        [word, spelled] => number_behind(word.bytes(), spelled.bytes()),
        _ => None,
    }
}

fn number_behind(word: &[u8], spelled: &[u8]) -> Option<u32>
    ensures number { result ≡ number_behind word.now spelled.now }
    ensures few { IfSome result (λ number. number ≤ 50000) }
{
    if word != &b"make"[..] {
        return None;
    }
    match number(spelled, 1, MOST_BOARDS) {
        Ok(count) => Some(count as u32),
        Err(_) => None,
    }
}

/// Runs the made script of a number, and writes the last line of its report with the fold of the
/// whole behind it.
///
/// The report is folded as it is made: neither the script nor the report is kept.
pub fn write_made<K: Sink>(alloc: Global, number: u32, report: &mut K) -> Status
    requires { number ≤ 50000 }
    ensures makes { Makes number (K.contents report.old) (K.contents report.new) result }
    ensures fits { IsMakeStatus result }
    ensures causes { (reads : ℕ)
        → HasCauses result reads reads (K.faults report.old) (K.faults report.new) }
{
    let text = match make_text(alloc, number) {
        Ok(text) => text,
        Err(_) => return Status::Memory,
    };
    match push_all(report, text.as_slice()) {
        Pushed::Whole => Status::Done,
        Pushed::Failed => Status::WriteFault,
    }
}

/// The last line of the report of a made script, with the fold of the whole behind it.
fn make_text(alloc: Global, number: u32) -> Result<Vec<u8>, Memory>
    requires { number ≤ 50000 }
    ensures { IfOk result (λ text. IsMakeText number text.items) }
{
    let mut run = ScriptRun::new(alloc);
    let text = text_of_run(alloc, number, &mut run);
    drop(run);
    text
}

/// Runs a made script on a new run, and answers the last line of its report with the fold of the
/// whole behind it.
fn text_of_run(alloc: Global, number: u32, run: &mut ScriptRun) -> Result<Vec<u8>, Memory>
    requires new { run.old ≡ no_lanes }
    requires few { number ≤ 50000 }
    ensures { IfOk result (λ text. IsMakeText number text.items) }
{
    let fold = run_made(alloc, number, run)?;
    last_line(alloc, run, fold)
}

/// Runs a made script, and answers the fold of what its lines are told of.
fn run_made(alloc: Global, number: u32, run: &mut ScriptRun) -> Result<u32, Memory>
    requires new { run.old ≡ no_lanes }
    requires few { number ≤ 50000 }
    ensures folds { IfOk result (λ fold. IsFolding (made_script number) run.new fold []) }
    ensures unspent { OnOk result (run.new.spent ≡ false) }
{
    let mut told = Vec::new(alloc);
    let mut fold = 0;
    for line in MadeScript::of(number) {
        do_made(run, line, &mut told)?;
        fold = fold_full(fold, &mut told);
    }
    Ok(folded(fold, told.as_slice()))
}

/// Does a line of a made script, which is of the first lane.
fn do_made(run: &mut ScriptRun, line: ScriptLine, told: &mut Vec<u8>) -> Result<(), Memory>
    requires unspent { run.old.spent ≡ false }
    requires few { lines_of run.old < 1000000 }
    requires within { IsWithin line }
    ensures does { OnOk result (DoesAsked (on_first line) run.old run.new told.old.items told.new.items) }
    ensures unspent { OnOk result (run.new.spent ≡ false) }
{
    let asked = LaneLine::On { lane: 1, line };
    let done = run.do_asked(&asked, told);
    drop(asked);
    done
}

/// Folds what was told and not folded yet, if there is a big piece of it.
fn fold_full(fold: u32, told: &mut Vec<u8>) -> u32
    ensures { fold_from result told.new.items ≡ fold_from fold told.old.items }
{
    if told.len() < PIECE_BYTES {
        return fold;
    }
    let now = folded(fold, told.as_slice());
    told.clear();
    now
}

/// The last line of a report, with the fold of the whole behind it. `fold` is that of all its
/// other lines.
fn last_line(alloc: Global, run: &ScriptRun, fold: u32) -> Result<Vec<u8>, Memory>
    requires { run.now.spent ≡ false }
    ensures { IfOk result (λ text. IsLastLine run.now fold text.items) }
{
    let mut text = Vec::new(alloc);
    if run.write_summary(&mut text).is_err() {
        return Err(Memory);
    }
    let whole = folded(fold, text.as_slice());
    text.pop();
    match write!(text, " fold={whole}\n") {
        Ok(()) => Ok(text),
        Err(_) => Err(Memory),
    }
}
