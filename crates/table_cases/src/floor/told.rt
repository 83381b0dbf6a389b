//! How answers and a floor are told.

ghost use Rattle.line_world.specs.FloorPlan.{IsGap, IsMachine};

use board_record::Sensed;
use line_base::{SensorEvent, Side};
use line_world::{Board, Floor, Gap};
use std::io;
use std::io::Write;

/// Appends each machine in brackets, its boards and behind a bar the events that it hasn't read,
/// each gap in parentheses, with the drives that run, and how many boards there are.
pub fn floor(floor: &Floor, to: &mut Vec<u8>) -> io::Result<()> {
    write!(to, ";")?;
    for index in 0..floor.machines() {
        if index > 0 {
            gap(floor, index, to)?;
        }
        machine(floor, index + 1, to)?;
    }
    write!(to, " {} boards", floor.boards())
}

fn machine(floor: &Floor, machine: usize, to: &mut Vec<u8>) -> io::Result<()>
    requires { IsMachine floor.now machine }
{
    write!(to, " [")?;
    for board in floor.list(machine) {
        write!(to, " ")?;
        tell_board(board, to)?;
    }
    write!(to, " |")?;
    for sensed in floor.unread(machine) {
        write!(to, " {}-{}", side_of(sensed.side), event_of(sensed.event))?;
    }
    write!(to, " ]")
}

fn gap(floor: &Floor, gap: usize, to: &mut Vec<u8>) -> io::Result<()>
    requires { IsGap floor.now gap }
{
    lies(&floor.gap(gap), to)?;
    if floor.drive(gap, Side::Exit) {
        write!(to, " exit on")?;
    }
    if floor.drive(gap, Side::Entry) {
        write!(to, " entry on")?;
    }
    write!(to, ")")
}

fn lies(gap: &Gap, to: &mut Vec<u8>) -> io::Result<()> {
    match gap {
        Gap::Free => write!(to, " (free"),
        Gap::Begun(board) => {
            write!(to, " (begun ")?;
            tell_board(board, to)
        }
        Gap::Left(board) => {
            write!(to, " (left ")?;
            tell_board(board, to)
        }
    }
}

/// Appends the number of a board's id, and for a board without one `?`.
fn tell_board(board: &Board, to: &mut Vec<u8>) -> io::Result<()> {
    match board.id {
        Some(id) => write!(to, "{}", id.number()),
        None => write!(to, "?"),
    }
}

/// Appends a board that was taken out.
pub fn taken(board: Option<Board>, to: &mut Vec<u8>) -> io::Result<()> {
    match board {
        Some(board) => tell_board(&board, to),
        None => write!(to, "none"),
    }
}

/// Appends the events that were read.
pub fn events(events: &[Sensed], to: &mut Vec<u8>) -> io::Result<()> {
    write!(to, "read")?;
    for sensed in events {
        write!(to, " {}-{}", side_of(sensed.side), event_of(sensed.event))?;
    }
    Ok(())
}

fn side_of(side: Side) -> &'static str {
    match side {
        Side::Exit => "exit",
        Side::Entry => "entry",
    }
}

fn event_of(event: SensorEvent) -> &'static str {
    match event {
        SensorEvent::Begun => "Begun",
        SensorEvent::Left => "Left",
        SensorEvent::Full => "Full",
        SensorEvent::Back => "Back",
        SensorEvent::Taken => "Taken",
    }
}
