ghost use Rattle.std.specs.Prelude.{◌≡◌};
ghost use Rattle.line_commands.specs.Answered.{IsAnswered};
ghost use Rattle.line_commands.specs.Command.{DoesAs, FitsWords, is_word, is_run, is_read, is_check};
ghost use Rattle.line_status.specs.Status.{HasCauses};
ghost use Rattle.line_commands.specs.Making.{made_number};

use crate::checking::check_merged;
use crate::making::{made_number, write_made};
use crate::running::run_script;
use line_base::{Word, Words};
use line_outside::{Sink, Source, push_all};
use line_status::Status;
use std::alloc::Global;
use stream_text::read_stream;

/// What is written where the words are none of the program's forms.
const USAGE: &str = "usage: line run | line read | line check | line make <number>\n";

/// Does what the words behind the name of the program `line` ask for: `run` runs a script, `read`
/// reads a stream of messages, `check` checks a merged log, `make` and a number run the script made
/// from it. Other words are answered by `Usage` and the usage text, and nothing is read.
///
/// `line_main` of `line_cli`, which says more of each, is this call with all that holds of it.
pub fn do_words<S: Source, K: Sink>(
    alloc: Global,
    words: &Words,
    script: &mut S,
    report: &mut K,
) -> Status
    ensures does { DoesAs (is_run words.now) (is_read words.now) (is_check words.now)
        (made_number words.now) (S.left script.old) (S.left script.new) (K.contents report.old)
        (K.contents report.new) (K.faults report.old) (K.faults report.new) result }
    ensures fits { FitsWords (is_run words.now) (is_read words.now) (is_check words.now)
        (made_number words.now) result }
    ensures causes { HasCauses result (S.faults script.old) (S.faults script.new)
        (K.faults report.old) (K.faults report.new) }
    // in one sentence: the answer is the one that words and bytes have, or a fault whose count
    // rose, or Memory
    ensures complete { IsAnswered (is_run words.now) (is_read words.now) (is_check words.now)
        (made_number words.now) (S.left script.old) (S.faults script.old) (S.faults script.new)
        (K.faults report.old) (K.faults report.new) result }
{
    do_word(alloc, words, script, report)
}

/// Does it; that the answer is the one that words and bytes have follows.
fn do_word<S: Source, K: Sink>(
    alloc: Global,
    words: &Words,
    script: &mut S,
    report: &mut K,
) -> Status
    ensures does { DoesAs (is_run words.now) (is_read words.now) (is_check words.now)
        (made_number words.now) (S.left script.old) (S.left script.new) (K.contents report.old)
        (K.contents report.new) (K.faults report.old) (K.faults report.new) result }
    ensures fits { FitsWords (is_run words.now) (is_read words.now) (is_check words.now)
        (made_number words.now) result }
    ensures causes { HasCauses result (S.faults script.old) (S.faults script.new)
        (K.faults report.old) (K.faults report.new) }
{
    if is_word(words.list(), b"run") {
        return run_script(alloc, script, report);
    }
    if is_word(words.list(), b"read") {
        return read_stream(alloc, script, report);
    }
    if is_word(words.list(), b"check") {
        return check_merged(alloc, script, report);
    }
    if let Some(number) = made_number(words.list()) {
        return write_made(alloc, number, report);
    }
    let _pushed = push_all(report, USAGE.as_bytes());
    Status::Usage
}

/// Whether the words are this word alone.
fn is_word(words: &[Word], asked: &[u8]) -> bool
    ensures { result ≡ is_word asked.now words.now }
{
    match words {
        [word] => word.bytes() == asked,
        _ => false,
    }
}
