//! What the words of a case mean to two machines.

ghost use Rattle.std.specs.Prelude.{◌≡◌};
ghost use Rattle.node_core.specs.May.{may_of, may_do};

use crate::input::{input_of, spell};
use crate::told;
use board_record::Sensed;
use line_base::{Memory, Moment, SensorEvent, Side};
use node_core::{Input, Node};
use std::alloc::Global;
use std::io;
use std::io::{ErrorKind, Write};

/// Appends a case with the acts of its steps, and how the machines stand then.
pub fn tell_after(
    alloc: Global,
    first: &mut Node,
    second: &mut Node,
    case: &str,
    to: &mut Vec<u8>,
) -> io::Result<()> {
    write!(to, "{case} =")?;
    for word in case.split_whitespace() {
        meet_either(alloc, first, second, word, to)?;
    }
    told::stands(first, to)?;
    told::stands(second, to)?;
    writeln!(to)
}

/// A word of a case: the machine's number, a `;`, and its step.
fn meet_either(
    alloc: Global,
    first: &mut Node,
    second: &mut Node,
    word: &str,
    to: &mut Vec<u8>,
) -> io::Result<()> {
    match word.split_once(';') {
        Some(("1", step)) => meet(alloc, first, step, to),
        Some(("2", step)) => meet(alloc, second, step, to),
        Some(("1*255", step)) => meet_often(alloc, first, step),
        _ => Ok(()),
    }
}

/// The steps of machine 1, of which nothing is told.
pub fn bring(alloc: Global, node: &mut Node, steps: &str) -> io::Result<()> {
    let mut untold = Vec::new(alloc);
    for word in steps.split_whitespace() {
        if let Some(("1", step)) = word.split_once(';') {
            meet(alloc, node, step, &mut untold)?;
            untold.clear();
        }
    }
    Ok(())
}

/// A step in which these bytes come, and its acts with the bytes that are sent.
pub fn hear(node: &mut Node, side: Side, bytes: &[u8], to: &mut Vec<u8>) -> io::Result<()> {
    let input = Input::Bytes(side, bytes);
    match node.may(&input) {
        Ok(()) => hear_open(node, input, to),
        Err(no) => write!(to, " | no: {no:?}"),
    }
}

fn hear_open(node: &mut Node, input: Input<'_>, to: &mut Vec<u8>) -> io::Result<()>
    requires { may_of node.old input ≡ may_do }
{
    let done = node.step(&[], input, Moment::of_millis(0));
    told::tell_spelled(&done, to)
}

fn meet_often(alloc: Global, node: &mut Node, step: &str) -> io::Result<()> {
    let mut untold = Vec::new(alloc);
    for _ in 0..255 {
        meet(alloc, node, step, &mut untold)?;
        untold.clear();
    }
    Ok(())
}

/// A step of a machine: its sensor events, each with a `,` behind it, and then its input.
fn meet(alloc: Global, node: &mut Node, step: &str, to: &mut Vec<u8>) -> io::Result<()> {
    let mut sensed = Vec::new(alloc);
    sense(step, &mut sensed)?;
    let mut bytes = Vec::new(alloc);
    spell(last_of(step), &mut bytes)?;
    take(
        alloc,
        node,
        sensed.as_slice(),
        last_of(step),
        bytes.as_slice(),
        to,
    )
}

/// What stands behind the last `,`.
fn last_of(step: &str) -> &str {
    match step.rsplit_once(',') {
        Some((_, last)) => last,
        None => step,
    }
}

/// Appends the sensor events of a step.
fn sense(step: &str, to: &mut Vec<Sensed>) -> io::Result<()> {
    for part in step.split(',') {
        sense_one(part, to)?;
    }
    Ok(())
}

fn sense_one(part: &str, to: &mut Vec<Sensed>) -> io::Result<()> {
    match sensed_of(part) {
        Some(event) => match to.push(event) {
            Ok(()) => Ok(()),
            Err(_) => Err(io::Error::from(ErrorKind::OutOfMemory)),
        },
        None => Ok(()),
    }
}

/// Makes a step, and appends its acts or the reason against it.
fn take(
    alloc: Global,
    node: &mut Node,
    sensed: &[Sensed],
    word: &str,
    bytes: &[u8],
    to: &mut Vec<u8>,
) -> io::Result<()> {
    match input_of(alloc, word, bytes) {
        Ok(input) => try_step(node, sensed, input, to),
        Err(Memory) => Err(io::Error::from(ErrorKind::OutOfMemory)),
    }
}

fn try_step(
    node: &mut Node,
    sensed: &[Sensed],
    input: Input<'_>,
    to: &mut Vec<u8>,
) -> io::Result<()> {
    match node.may(&input) {
        Ok(()) => tell_step(node, sensed, input, to),
        Err(no) => write!(to, " | no: {no:?}"),
    }
}

fn tell_step(
    node: &mut Node,
    sensed: &[Sensed],
    input: Input<'_>,
    to: &mut Vec<u8>,
) -> io::Result<()>
    requires { may_of node.old input ≡ may_do }
{
    let done = node.step(sensed, input, Moment::of_millis(0));
    told::tell_done(&done, to)
}

fn sensed_of(word: &str) -> Option<Sensed> {
    let (side, event) = match word {
        "begun.out" => (Side::Exit, SensorEvent::Begun),
        "left.out" => (Side::Exit, SensorEvent::Left),
        "back.out" => (Side::Exit, SensorEvent::Back),
        "taken.out" => (Side::Exit, SensorEvent::Taken),
        "begun.in" => (Side::Entry, SensorEvent::Begun),
        "full.in" => (Side::Entry, SensorEvent::Full),
        "back.in" => (Side::Entry, SensorEvent::Back),
        "taken.in" => (Side::Entry, SensorEvent::Taken),
        _ => return None,
    };
    Some(Sensed { side, event })
}
