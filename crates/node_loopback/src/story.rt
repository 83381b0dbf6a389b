use crate::child::{ended, start_in_story};
use crate::merged::merge;
use crate::pair::{Machine, Pair};
use crate::story_settings::{self, story_ports};
use crate::told::{append, tell_merged, tell_verdict};
use std::io::{self, ErrorKind, Write};
use std::process::Output;

/// Plays a story with two machines that are started for it, and tells what their controls did,
/// how they ended, the merged log and what the checker of such logs says of it.
///
/// The first line of a story is its name, each other one a step: `M says LINE`, to its panel;
/// `M hears WORDS`, from its panel; `M sends WORDS`, to the other machine; `M asks SIDE`, as a
/// control asks whether a board may begin there; `the cable breaks`. M is `loader` or `printer`.
/// An error where the host fails, where a step isn't one of these, or where a machine doesn't
/// answer in time. The machines are killed then.
pub fn play_story(rt: &HostRuntime, story: &str, to: &mut Vec<u8>) -> io::Result<()> {
    let (name, steps) = story.split_once('\n').unwrap_or((story, ""));
    append("=== ", to)?;
    append(name, to)?;
    append("\n", to)?;
    let ports = story_ports(rt)?;
    let mut pair = Pair::new(rt, ports)?;
    let loader = story_settings::loader(rt.alloc(), ports)?;
    let printer = story_settings::printer(rt.alloc(), ports)?;
    let loader = start_in_story(rt, loader.as_str())?;
    let printer = start_in_story(rt, printer.as_str())?;
    let played = play_steps(&mut pair, steps, to);
    let loader = ended(rt, loader, played.is_err())?;
    let printer = ended(rt, printer, played.is_err())?;
    played?;
    tell_end("loader", &loader, to)?;
    tell_end("printer", &printer, to)?;
    tell_logs(rt, &loader, &printer, to)
}

fn play_steps(pair: &mut Pair, steps: &str, to: &mut Vec<u8>) -> io::Result<()> {
    pair.open()?;
    for step in steps.lines() {
        if step == "the cable breaks" {
            pair.cut();
        } else {
            play_step(pair, step, to)?;
        }
    }
    pair.say(Machine::Loader, "end")?;
    pair.say(Machine::Printer, "end")
}

fn play_step(pair: &mut Pair, step: &str, to: &mut Vec<u8>) -> io::Result<()> {
    let (name, deed) = step.split_once(' ').unwrap_or((step, ""));
    let (verb, words) = deed.split_once(' ').unwrap_or((deed, ""));
    let machine = match name {
        "loader" => Machine::Loader,
        "printer" => Machine::Printer,
        _ => return Err(io::Error::from(ErrorKind::InvalidData)),
    };
    match verb {
        "says" => pair.say(machine, words),
        "hears" => pair.hear(machine, words),
        "sends" => pair.pass(machine, words),
        "asks" => ask(pair, machine, words, to),
        _ => Err(io::Error::from(ErrorKind::InvalidData)),
    }
}

/// The rule for a control: it says that a board begins, and lets it go or takes it across where
/// that is read and the last word on its drive was `on`.
fn ask(pair: &mut Pair, machine: Machine, side: &str, to: &mut Vec<u8>) -> io::Result<()> {
    let (says, hears, drive, name) = match (machine, side) {
        (Machine::Loader, "out") => (
            "sense out Begun",
            "reads 1 out Begun\n",
            "drive 1 out ",
            "the loader's exit: ",
        ),
        (Machine::Printer, "in") => (
            "sense in Begun",
            "reads 2 in Begun\n",
            "drive 2 in ",
            "the printer's entry: ",
        ),
        _ => return Err(io::Error::from(ErrorKind::InvalidData)),
    };
    pair.say(machine, says)?;
    pair.hear(machine, hears)?;
    append(name, to)?;
    if pair.is_on(machine, drive) {
        append("the drive is on, so the board goes\n", to)?;
    } else {
        append("the drive is off, so the board is held\n", to)?;
    }
    Ok(())
}

fn tell_end(name: &str, output: &Output, to: &mut Vec<u8>) -> io::Result<()> {
    match output.status.code() {
        Some(number) => writeln!(to, "the {name} ends with {number}"),
        None => writeln!(to, "the {name} is killed"),
    }
}

/// Tells the merged log, and what is said of it.
fn tell_logs(
    rt: &HostRuntime,
    loader: &Output,
    printer: &Output,
    to: &mut Vec<u8>,
) -> io::Result<()> {
    let mut merged = Vec::new(rt.alloc());
    if !merge(
        loader.stdout.as_slice(),
        printer.stdout.as_slice(),
        &mut merged,
    )? {
        append("a message was heard that nobody sent\n", to)?;
    }
    tell_merged(merged.as_slice(), to)?;
    tell_verdict(rt.alloc(), merged.as_slice(), to)
}
