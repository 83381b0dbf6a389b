//! The reader of a line by its first word.

ghost use Rattle.std.specs.Prelude.{◌≡◌, IfOk, map};
ghost use Rattle.line_script.specs.Ranges.{IsLaneWithin};
ghost use Rattle.line_script.specs.Words.{Reads};
ghost use Rattle.line_script.specs.Grammar.{line_among, forms, board_forms, link_forms, machine_forms, floor_forms, whole_forms};

use crate::forms::{
    answer, ask, back, begin, bridge, connect, cut, enter, fault, flow, forecast, go, hand_in,
    hold, insert, lanes, left, lie, machine, mark, notice, query, refused, remove, replace, sense,
    shift, show, shutdown, signal, spoil, stop, sub, supervise, take, tick, unseen,
};
use crate::line::{LaneLine, LineError, LineWhy};
use crate::words::is_word;
use std::alloc::Global;

/// The line that a first word and its arguments ask for.
pub fn line_of(alloc: Global, first: &[u8], words: &[&[u8]]) -> Result<LaneLine, LineError>
    ensures answer { Reads (line_among forms first.now (map (λ word. word.now) words.now)) result }
    ensures within { IfOk result IsLaneWithin }
{
    if is_word(first, b"machine") {
        return refused(machine(words));
    }
    if is_word(first, b"bridge") {
        return refused(bridge(words));
    }
    if is_word(first, b"insert") {
        return insert(alloc, words);
    }
    if is_word(first, b"query") {
        return query(alloc, words);
    }
    if is_word(first, b"ask") {
        return ask(alloc, words);
    }
    if is_word(first, b"answer") {
        return answer(alloc, words);
    }
    if is_word(first, b"sub") {
        return sub(alloc, words);
    }
    refused(board_line(first, words))
}

fn board_line(first: &[u8], words: &[&[u8]]) -> Result<LaneLine, LineWhy>
    ensures answer { result ≡ line_among board_forms first.now (map (λ word. word.now) words.now) }
    ensures within { IfOk result IsLaneWithin }
{
    if is_word(first, b"remove") {
        return remove(words);
    }
    if is_word(first, b"replace") {
        return replace(words);
    }
    if is_word(first, b"shift") {
        return shift(words);
    }
    if is_word(first, b"mark") {
        return mark(words);
    }
    if is_word(first, b"hold") {
        return hold(words);
    }
    if is_word(first, b"go") {
        return go(words);
    }
    if is_word(first, b"signal") {
        return signal(words);
    }
    link_line(first, words)
}

fn link_line(first: &[u8], words: &[&[u8]]) -> Result<LaneLine, LineWhy>
    ensures answer { result ≡ line_among link_forms first.now (map (λ word. word.now) words.now) }
    ensures within { IfOk result IsLaneWithin }
{
    if is_word(first, b"connect") {
        return connect(words);
    }
    if is_word(first, b"flow") {
        return flow(words);
    }
    if is_word(first, b"notice") {
        return notice(words);
    }
    if is_word(first, b"cut") {
        return cut(words);
    }
    if is_word(first, b"spoil") {
        return spoil(words);
    }
    if is_word(first, b"forecast") {
        return forecast(words);
    }
    if is_word(first, b"supervise") {
        return supervise(words);
    }
    machine_line(first, words)
}

fn machine_line(first: &[u8], words: &[&[u8]]) -> Result<LaneLine, LineWhy>
    ensures answer { result ≡ line_among machine_forms first.now (map (λ word. word.now) words.now) }
    ensures within { IfOk result IsLaneWithin }
{
    if is_word(first, b"shutdown") {
        return shutdown(words);
    }
    if is_word(first, b"stop") {
        return stop(words);
    }
    if is_word(first, b"tick") {
        return tick(words);
    }
    if is_word(first, b"fault") {
        return fault(words);
    }
    if is_word(first, b"lie") {
        return lie(words);
    }
    if is_word(first, b"unseen") {
        return unseen(words);
    }
    floor_line(first, words)
}

fn floor_line(first: &[u8], words: &[&[u8]]) -> Result<LaneLine, LineWhy>
    ensures answer { result ≡ line_among floor_forms first.now (map (λ word. word.now) words.now) }
    ensures within { IfOk result IsLaneWithin }
{
    if is_word(first, b"sense") {
        return sense(words);
    }
    if is_word(first, b"begin") {
        return begin(words);
    }
    if is_word(first, b"left") {
        return left(words);
    }
    if is_word(first, b"in") {
        return enter(words);
    }
    if is_word(first, b"back") {
        return back(words);
    }
    if is_word(first, b"hand-in") {
        return hand_in(words);
    }
    if is_word(first, b"take") {
        return take(words);
    }
    whole_line(first, words)
}

fn whole_line(first: &[u8], words: &[&[u8]]) -> Result<LaneLine, LineWhy>
    ensures answer { result ≡ line_among whole_forms first.now (map (λ word. word.now) words.now) }
    ensures within { IfOk result IsLaneWithin }
{
    if is_word(first, b"lanes") {
        return lanes(words);
    }
    if is_word(first, b"show") {
        return show(words);
    }
    Err(LineWhy::UnknownWord)
}
