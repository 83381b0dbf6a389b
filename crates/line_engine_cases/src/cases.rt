//! A case: its name, and then a script with questions in it.

ghost use Rattle.std.specs.Prelude.{◌≡◌, false, OnOk};

use crate::lines::do_text;
use board_record::BoardId;
use line_base::{Memory, Side};
use line_engine::{LaneMark, LaneStanding, Line, write_summary};
use standings::{Mark, Standing};
use std::alloc::Global;
use std::io::{self, Write};

/// Appends a case's name, what its lines tell, and the last line of the report.
pub fn tell_case(alloc: Global, case: &str, to: &mut Vec<u8>) -> Result<(), Memory> {
    let (name, script) = case.split_once('\n').unwrap_or((case, ""));
    written(write!(to, "=== {name}\n"))?;
    let mut line = Line::new(alloc);
    tell_script(alloc, script, &mut line, to)
}

fn tell_script(alloc: Global, script: &str, line: &mut Line, to: &mut Vec<u8>) -> Result<(), Memory>
    requires { line.old.spent ≡ false }
{
    for text in script.lines() {
        tell_text(alloc, text, line, to)?;
    }
    write_summary(&line.summary(), to)
}

/// Does a line of the case: `? ID` asks where a board stands and for its marks on all lanes, `? M SIDE`
/// how many bytes are on their way to a side on lane 1, `@N one; other` does two script lines in turn N times
/// and tells nothing, and any other is a script line.
fn tell_text(alloc: Global, text: &str, line: &mut Line, to: &mut Vec<u8>) -> Result<(), Memory>
    requires { line.old.spent ≡ false }
    ensures { OnOk result (line.new.spent ≡ false) }
{
    if let Some(asked) = text.strip_prefix("? ") {
        return answer(alloc, asked, line, to);
    }
    match text.strip_prefix('@') {
        Some(rest) => repeat(alloc, rest, line),
        None => do_text(alloc, text, line, to),
    }
}

fn answer(alloc: Global, asked: &str, line: &Line, to: &mut Vec<u8>) -> Result<(), Memory>
    requires { line.now.spent ≡ false }
{
    match asked.split_once(' ') {
        Some((machine, side)) => tell_in_flight(machine, side, line, to),
        None => tell_board(alloc, asked, line, to),
    }
}

/// Appends how many bytes are on their way to a side.
fn tell_in_flight(machine: &str, side: &str, line: &Line, to: &mut Vec<u8>) -> Result<(), Memory>
    requires { line.now.spent ≡ false }
{
    let machine = machine.parse().unwrap_or(0);
    let side = match side {
        "in" => Side::Entry,
        _ => Side::Exit,
    };
    let count = line.in_flight(1, machine, side);
    written(write!(to, "? {count} bytes\n"))
}

/// Appends where a board stands, and its marks.
fn tell_board(alloc: Global, text: &str, line: &Line, to: &mut Vec<u8>) -> Result<(), Memory>
    requires { line.now.spent ≡ false }
{
    match BoardId::read(text.as_bytes()) {
        Err(_) => written(write!(to, "? no id\n")),
        Ok(id) => {
            tell_standing(line.standing(id), to)?;
            let marks = line.all_marks(alloc, id)?;
            tell_marks(marks.as_slice(), to)
        }
    }
}

fn tell_standing(place: Option<LaneStanding>, to: &mut Vec<u8>) -> Result<(), Memory> {
    let Some(place) = place else {
        return written(write!(to, "? nowhere"));
    };
    match place.standing {
        Standing::With(machine) => written(write!(to, "? with {machine}"))?,
        Standing::Between(gap) => written(write!(to, "? between {gap}"))?,
    }
    tell_lane(place.lane, to)
}

/// Appends a lane, but not the first one.
fn tell_lane(lane: u32, to: &mut Vec<u8>) -> Result<(), Memory> {
    if lane == 1 {
        return Ok(());
    }
    written(write!(to, " of lane {lane}"))
}

fn tell_marks(marks: &[LaneMark], to: &mut Vec<u8>) -> Result<(), Memory> {
    for mark in marks {
        tell_mark(mark.mark, to)?;
        tell_lane(mark.lane, to)?;
    }
    written(write!(to, "\n"))
}

fn tell_mark(mark: Mark, to: &mut Vec<u8>) -> Result<(), Memory> {
    match mark {
        Mark::Kept(machine) => written(write!(to, ", kept {machine}")),
        Mark::Outlet(machine) => written(write!(to, ", outlet {machine}")),
        Mark::Intake(machine) => written(write!(to, ", intake {machine}")),
    }
}

/// Does two script lines in turn, so many times.
fn repeat(alloc: Global, text: &str, line: &mut Line) -> Result<(), Memory>
    requires { line.old.spent ≡ false }
    ensures { OnOk result (line.new.spent ≡ false) }
{
    let (count, both) = text.split_once(' ').unwrap_or((text, ""));
    let (one, other) = both.split_once("; ").unwrap_or((both, ""));
    let count = count.parse::<u32>().unwrap_or(0);
    let mut untold = Vec::new(alloc);
    for _ in 0..count {
        do_text(alloc, one, line, &mut untold)?;
        do_text(alloc, other, line, &mut untold)?;
        untold.clear();
    }
    Ok(())
}

fn written(done: io::Result<()>) -> Result<(), Memory> {
    match done {
        Ok(()) => Ok(()),
        Err(_) => Err(Memory),
    }
}
