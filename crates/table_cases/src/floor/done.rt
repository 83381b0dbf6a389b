//! What the words of a case mean: a name, and behind colons a machine or a gap, ids, an event.

ghost use Rattle.line_world.specs.FloorPlan.{IsGap, IsMachine};

use crate::floor::told;
use board_record::{BoardId, Sensed};
use line_base::{Memory, SensorEvent, Side};
use line_world::{Board, Floor, Move, MoveError};
use std::io;
use std::io::Write;

/// Does what a word says, and appends the answer.
pub fn answer(floor: &mut Floor, word: &str, to: &mut Vec<u8>) -> io::Result<()> {
    let (what, rest) = parted(word);
    let (number, rest) = parted(rest);
    let number = number.parse().unwrap_or(0);
    if what == "machine" {
        return match floor.add_machine() {
            Ok(()) => write!(to, "done"),
            Err(Memory) => write!(to, "out of memory"),
        };
    }
    if let Some(step) = move_of(what) {
        return match floor.apply(number, step) {
            Ok(()) => write!(to, "done"),
            Err(MoveError::No(why)) => write!(to, "{why}"),
            Err(MoveError::Memory) => write!(to, "out of memory"),
        };
    }
    if let Some(side) = side_of(what) {
        if number > 0 && number < floor.machines() {
            return switch(floor, number, side, rest, to);
        }
    }
    if number > 0 && number <= floor.machines() {
        return at_machine(floor, number, what, rest, to);
    }
    write!(to, "nothing is done")
}

/// What stands before the first colon, and what behind it.
fn parted(word: &str) -> (&str, &str) {
    word.split_once(':').unwrap_or((word, ""))
}

fn switch(floor: &mut Floor, gap: usize, side: Side, on: &str, to: &mut Vec<u8>) -> io::Result<()>
    requires { IsGap floor.old gap }
{
    floor.set_drive(gap, side, on == "on");
    write!(to, "done")
}

fn at_machine(
    floor: &mut Floor,
    machine: usize,
    what: &str,
    rest: &str,
    to: &mut Vec<u8>,
) -> io::Result<()>
    requires { IsMachine floor.old machine }
{
    match what {
        "place" => match floor.place(machine, board_of(rest)) {
            Ok(()) => write!(to, "done"),
            Err(Memory) => write!(to, "out of memory"),
        },
        "read" => match floor.read_all(machine) {
            Ok(sensors) => told::events(sensors.list(), to),
            Err(Memory) => write!(to, "out of memory"),
        },
        "unseen" => told::taken(floor.unseen_out(machine), to),
        "remove" => told::taken(floor.remove(machine, id_of(rest)), to),
        _ => at_place(floor, machine, what, rest, to),
    }
}

fn at_place(
    floor: &mut Floor,
    machine: usize,
    what: &str,
    rest: &str,
    to: &mut Vec<u8>,
) -> io::Result<()>
    requires { IsMachine floor.old machine }
{
    let (first, second) = parted(rest);
    match what {
        "find" => match floor.place_of(machine, id_of(rest)) {
            Some(place) => write!(to, "at {place}"),
            None => write!(to, "none"),
        },
        "replace" => {
            let found = floor.replace(machine, id_of(first), id_of(second));
            write!(to, "{found}")
        }
        "lie" => match (side_of(first), event_of(second)) {
            (Some(side), Some(event)) => lie(floor, machine, Sensed { side, event }, to),
            _ => write!(to, "nothing is done"),
        },
        _ => write!(to, "nothing is done"),
    }
}

fn lie(floor: &mut Floor, machine: usize, sensed: Sensed, to: &mut Vec<u8>) -> io::Result<()>
    requires { IsMachine floor.old machine }
{
    match floor.lie(machine, sensed) {
        Ok(()) => write!(to, "done"),
        Err(Memory) => write!(to, "out of memory"),
    }
}

fn id_of(number: &str) -> BoardId {
    BoardId::of(number.parse().unwrap_or(0))
}

/// A board with the id of this number, and for `?` one without an id.
fn board_of(number: &str) -> Board {
    if number == "?" {
        return Board { id: None };
    }
    Board {
        id: Some(id_of(number)),
    }
}

fn move_of(word: &str) -> Option<Move> {
    match word {
        "begin" => Some(Move::Begin),
        "left" => Some(Move::Left),
        "in" => Some(Move::Enter),
        "back" => Some(Move::Back),
        "hand-in" => Some(Move::HandIn),
        "take" => Some(Move::Take),
        _ => None,
    }
}

fn side_of(word: &str) -> Option<Side> {
    match word {
        "exit" => Some(Side::Exit),
        "entry" => Some(Side::Entry),
        _ => None,
    }
}

fn event_of(word: &str) -> Option<SensorEvent> {
    match word {
        "Begun" => Some(SensorEvent::Begun),
        "Left" => Some(SensorEvent::Left),
        "Full" => Some(SensorEvent::Full),
        "Back" => Some(SensorEvent::Back),
        "Taken" => Some(SensorEvent::Taken),
        _ => None,
    }
}
