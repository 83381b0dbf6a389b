use line_base::{Memory, Word, Words};
use line_outside::{HostClock, MemorySource, SocketPorts, WriterSink};
use node_cli::{NodeStatus, node_main};
use std::alloc::{AllocError, Global};
use std::io::Write;
use std::process::ExitCode;
use std::{env, io};

/// The first of the words with which this program is the machine.
pub const MACHINE_WORD: &str = "machine";

/// The first of the words with which it is a machine of a story.
pub const STORY_WORD: &str = "story";

/// At which ports the machine listens.
#[derive(Clone, Copy)]
pub struct MachinePorts {
    pub panel: u16,
    pub downstream: u16,
    pub config: u16,
}

/// The ports of the machine that this program is to be, if it is.
pub fn asked_ports(rt: &HostRuntime) -> Option<MachinePorts> {
    let mut words = env::args(rt).ok()?.skip(1);
    let first = words.next()?;
    if first.as_str() != MACHINE_WORD {
        return None;
    }
    let panel = words.next()?.as_str().parse::<u16>().ok()?;
    let downstream = words.next()?.as_str().parse::<u16>().ok()?;
    let config = words.next()?.as_str().parse::<u16>().ok()?;
    Some(MachinePorts {
        panel,
        downstream,
        config,
    })
}

/// Runs the machine as the program `node` does, with its log on standard output.
pub fn run(rt: &HostRuntime, ports: MachinePorts) -> ExitCode {
    let status = match run_node(rt, ports) {
        Ok(status) => status,
        Err(Memory) => NodeStatus::Memory,
    };
    ExitCode::from(status.exit_number())
}

fn run_node(rt: &HostRuntime, ports: MachinePorts) -> Result<NodeStatus, Memory> {
    let settings = settings_of(rt.alloc(), ports)?;
    run_with(rt, settings.as_slice())
}

/// Runs the machine of these settings.
fn run_with(rt: &HostRuntime, settings: &[u8]) -> Result<NodeStatus, Memory> {
    let mut words = Words::new(rt.alloc());
    words.push(Word::of(rt.alloc(), b"settings")?)?;
    let mut file = MemorySource::new(rt.alloc(), settings, &[])?;
    let mut sockets = SocketPorts::new(copy_of(rt)?);
    let mut clock = HostClock::new(copy_of(rt)?);
    let mut log = WriterSink::new(io::writer(rt));
    Ok(node_main(
        rt.alloc(),
        &words,
        &mut file,
        &mut sockets,
        &mut clock,
        &mut log,
    ))
}

/// The settings file. A machine that nobody ends is done after some hundred seconds, since a turn
/// at rest takes a millisecond.
fn settings_of(alloc: Global, ports: MachinePorts) -> Result<Vec<u8>, Memory> {
    let MachinePorts {
        panel,
        downstream,
        config,
    } = ports;
    let mut text = Vec::new(alloc);
    let written = write!(
        text,
        "number = 7\nmachine_id = \"Loader\"\nlane = 1\ncapacity = 4\npanel_port = {panel}\ndownstream_port = {downstream}\nconfig_port = {config}\nturns = 100000\n"
    );
    match written {
        Ok(()) => Ok(text),
        Err(_) => Err(Memory),
    }
}

/// The settings of the machine of a story that this program is to be, if it is.
pub fn asked_settings(rt: &HostRuntime) -> Option<String> {
    let mut words = env::args(rt).ok()?.skip(1);
    let first = words.next()?;
    if first.as_str() != STORY_WORD {
        return None;
    }
    words.next()
}

/// Runs a machine of a story, likewise.
pub fn run_in_story(rt: &HostRuntime, settings: &str) -> ExitCode {
    let status = match run_with(rt, settings.as_bytes()) {
        Ok(status) => status,
        Err(Memory) => NodeStatus::Memory,
    };
    ExitCode::from(status.exit_number())
}

fn copy_of(rt: &HostRuntime) -> Result<HostRuntime, Memory> {
    let copy: Result<HostRuntime, AllocError> = rt.clone();
    match copy {
        Ok(copy) => Ok(copy),
        Err(_) => Err(Memory),
    }
}
