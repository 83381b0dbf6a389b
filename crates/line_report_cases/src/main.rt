//! The cases of a report: each line names a happening of script line 7, or the numbers of the last
//! line, and is written again with the text that the report has of it.
#![tactic(auto)]

mod acts;
mod happenings;
mod reasons;
mod values;

use line_base::Memory;
use line_report::{
    Happened, Happening, LaneHappened, Summary, tell_shift, write_all, write_happening, write_on,
    write_summary,
};
use std::alloc::Global;
use std::io;
use std::io::{ErrorKind, Write};

fn main(rt: HostRuntime) -> io::Result<()> {
    let mut out = io::writer(&rt);
    for case in rt.lines(rt.alloc()) {
        let case = case?;
        let mut said = Vec::new(rt.alloc());
        tell_case(rt.alloc(), case.as_str(), &mut said)?;
        out.write_all(said.as_slice())?;
    }
    Ok(())
}

/// Appends a case with its text, which has the line's end.
fn tell_case(alloc: Global, case: &str, to: &mut Vec<u8>) -> io::Result<()> {
    write!(to, "{case} = ")?;
    let told = match case.split_once(' ') {
        Some(("Summary", numbers)) => write_summary(&summary_of(numbers), to),
        Some(("On", about)) => tell_on(alloc, about, to),
        Some(("Shift", about)) => tell_shifted(alloc, about, to),
        Some((what, about)) => tell(alloc, what, about, to),
        None => tell(alloc, case, "", to),
    };
    match told {
        Ok(()) => Ok(()),
        Err(Memory) => Err(io::Error::from(ErrorKind::OutOfMemory)),
    }
}

/// Appends the text of a happening.
fn tell(alloc: Global, what: &str, about: &str, to: &mut Vec<u8>) -> Result<(), Memory> {
    let happening = happenings::happening_of(alloc, what, about)?;
    write_happening(7, &happening, to)
}

/// Appends the text of a happening on a lane: the lane, and then the happening's words.
fn tell_on(alloc: Global, about: &str, to: &mut Vec<u8>) -> Result<(), Memory> {
    let (lane, words) = values::parted(about);
    let (what, about) = values::parted(words);
    let happening = happenings::happening_of(alloc, what, about)?;
    write_on(7, values::number_of(lane), &happening, to)
}

/// Appends the texts of a shift: its lanes, and then what was told on each, with ` / ` between.
fn tell_shifted(alloc: Global, about: &str, to: &mut Vec<u8>) -> Result<(), Memory> {
    let (from, words) = values::parted(about);
    let (lane, words) = values::parted(words);
    let (given, got) = match words.split_once(" / ") {
        Some(both) => both,
        None => (words, ""),
    };
    let given = told_of(alloc, given)?;
    let got = told_of(alloc, got)?;
    let mut told = LaneHappened::new(alloc);
    let from = values::number_of(from);
    let lane = values::number_of(lane);
    let done = match tell_shift(from, given, lane, got, &mut told) {
        Ok(()) => write_all(7, &told, to),
        Err(Memory) => Err(Memory),
    };
    drop(told);
    done
}

/// What machine 3 did: its acts, with `, ` between.
fn told_of(alloc: Global, acts: &str) -> Result<Happened, Memory> {
    let mut told = Happened::new(alloc);
    for act in acts.split(", ") {
        let act = acts::act_of(alloc, act)?;
        told.tell(Happening::Done { machine: 3, act })?;
    }
    Ok(told)
}

fn summary_of(numbers: &str) -> Summary {
    let mut words = numbers.split(' ');
    Summary {
        lines: values::long_of(words.next()),
        boards: values::long_of(words.next()),
        opened: values::long_of(words.next()),
        settled: values::long_of(words.next()),
        unvouched: words.next().map(|line| values::long_of(Some(line))),
    }
}
