use case_text::{spell, spell_time, times_of};
use line_base::{Memory, Word};
use line_outside::{GotBytes, PortAnswer, Way};
use std::alloc::Global;

/// What stands in a case behind `<`: a way, and what a poll of it finds.
pub fn answer_of(alloc: Global, words: &str) -> Result<PortAnswer, Memory> {
    let (way, what) = words.split_once(' ').unwrap_or((words, ""));
    let got = got_of(alloc, what)?;
    Ok(PortAnswer {
        way: way_of(way),
        got,
    })
}

/// The same, where the text found is too long to be written out: texts with a `,` between them, and `*N `
/// before one that stands N times.
pub fn long_answer_of(alloc: Global, words: &str) -> Result<PortAnswer, Memory> {
    let (way, what) = words.split_once(' ').unwrap_or((words, ""));
    let got = long_got_of(alloc, what)?;
    Ok(PortAnswer {
        way: way_of(way),
        got,
    })
}

fn long_got_of(alloc: Global, what: &str) -> Result<GotBytes, Memory> {
    if what.starts_with('!') {
        return got_of(alloc, what);
    }
    let mut bytes = Vec::new(alloc);
    for text in what.split(',') {
        let (times, text) = times_of(text);
        spell_often(alloc, times, text, &mut bytes)?;
    }
    Ok(GotBytes::Bytes(Word::of(alloc, bytes.as_slice())?))
}

fn spell_often(alloc: Global, times: u64, text: &str, to: &mut Vec<u8>) -> Result<(), Memory> {
    for number in 1..=times {
        spell_time(alloc, number, text, to)?;
    }
    Ok(())
}

fn way_of(word: &str) -> Way {
    if word == "panel" {
        return Way::Panel;
    }
    if word == "up" {
        return Way::Upstream;
    }
    if word == "super" {
        return Way::Supervisory;
    }
    if word == "config" {
        return Way::Configuration;
    }
    Way::Downstream
}

fn got_of(alloc: Global, what: &str) -> Result<GotBytes, Memory> {
    if what == "!arrived" {
        return Ok(GotBytes::Arrived);
    }
    if what == "!second" {
        return Ok(GotBytes::Second);
    }
    if what == "!not-yet" {
        return Ok(GotBytes::NotYet);
    }
    if what == "!closed" {
        return Ok(GotBytes::Closed);
    }
    if what == "!failed" {
        return Ok(GotBytes::Failed);
    }
    let mut bytes = Vec::new(alloc);
    spell(what, &mut bytes)?;
    Ok(GotBytes::Bytes(Word::of(alloc, bytes.as_slice())?))
}
