//! Plays `node` over this computer's sockets: a child is the machine, and its neighbour and its
//! panel are played here. Writes what these took, the machine's log without the numbers of the
//! turns, and how it ended. Before these plays it plays the stories of its input (src/story.rt).
//!
//! With no words it plays. It starts itself with the words `machine PANEL DOWNSTREAM CONFIG`, three
//! ports, to be the machine.
#![tactic(auto)]

mod child;
mod heard;
mod machine;
mod merged;
mod pair;
mod peer;
mod plays;
mod story;
mod story_settings;
mod told;

use crate::plays::Play;
use std::io::{self, Write};
use std::process::ExitCode;

const PLAYS: [Play; 5] = [
    Play::NodeOverPorts,
    Play::ByteByByte,
    Play::SecondConnection,
    Play::LongLine,
    Play::NewPort,
];

fn main(rt: HostRuntime) -> ExitCode {
    if let Some(ports) = machine::asked_ports(&rt) {
        return machine::run(&rt, ports);
    }
    if let Some(settings) = machine::asked_settings(&rt) {
        return machine::run_in_story(&rt, settings.as_str());
    }
    if play_stories(&rt).is_err() {
        return ExitCode::FAILURE;
    }
    match play_all(&rt) {
        Ok(()) => ExitCode::SUCCESS,
        Err(_) => ExitCode::FAILURE,
    }
}

/// Plays each story of the input, and ends at the first that fails.
fn play_stories(rt: &HostRuntime) -> io::Result<()> {
    let stories = io::read_to_string(rt.alloc(), rt.reader())?;
    let mut out = io::writer(rt);
    for story in stories.as_str().split("=== ").skip(1) {
        let mut told = Vec::new(rt.alloc());
        let played = story::play_story(rt, story, &mut told);
        out.write_all(told.as_slice())?;
        if let Err(error) = played {
            writeln!(out, "failed: {error}")?;
            return Err(error);
        }
    }
    Ok(())
}

/// Plays one after the other, and ends at the first that fails.
fn play_all(rt: &HostRuntime) -> io::Result<()> {
    let mut out = io::writer(rt);
    for play in PLAYS {
        let mut told = Vec::new(rt.alloc());
        let played = plays::play_one(rt, play, &mut told);
        out.write_all(told.as_slice())?;
        if let Err(error) = played {
            writeln!(out, "failed: {error}")?;
            return Err(error);
        }
    }
    Ok(())
}
