use crate::child::{FreePorts, ended, free_ports, start};
use crate::machine::MachinePorts;
use crate::peer::Peer;
use crate::told::{append, tell_log, tell_taken};
use line_outside::Way;
use std::alloc::Global;
use std::io::{self, Write};
use std::process::Output;

/// What is played with a machine.
#[derive(Clone, Copy, PartialEq, Eq)]
pub enum Play {
    /// The downstream neighbour describes itself, and then sends what is no message.
    NodeOverPorts,
    /// The downstream neighbour sends its description a byte at a time, and closes.
    ByteByByte,
    /// A second neighbour connects downstream while the first stands, and a second panel while a
    /// panel stands.
    SecondConnection,
    /// The panel sends a line that is too long, a byte more than a line may have.
    LongLine,
    /// A tool sets another port for the downstream neighbour while one is connected, which connects
    /// there then.
    NewPort,
}

const DESCRIPTION: &[u8] =
    b"<Hermes><ServiceDescription MachineId=\"P\" LaneId=\"1\" Version=\"1.0\"/></Hermes>";

const NO_MESSAGE: &[u8] = b"<Hermes><Bogus </Hermes>";

const END_OF_MESSAGE: &[u8] = b"</Hermes>";

/// How many bytes are sent at a time, where it doesn't matter.
const WHOLE: usize = 65_536;

/// How many bytes a line of the panel may have.
const LINE_BYTES: usize = 4096;

/// Plays with a machine that is started for it, and tells what its peers took, its log and how it
/// ended.
///
/// An error where the host fails, or where the machine doesn't answer in time. The machine is
/// killed then.
pub fn play_one(rt: &HostRuntime, play: Play, to: &mut Vec<u8>) -> io::Result<()> {
    append(name_of(play), to)?;
    let FreePorts {
        machine: ports,
        spare,
    } = free_ports(rt)?;
    let mut peer = Peer::new(rt.clone()?, rt.clone()?);
    let child = start(rt, ports)?;
    let played = play_with(rt.alloc(), &mut peer, ports, spare, play, to);
    let output = ended(rt, child, played.is_err())?;
    tell_end(&output, to)?;
    played
}

fn tell_end(output: &Output, to: &mut Vec<u8>) -> io::Result<()> {
    tell_log(output.stdout.as_slice(), to)?;
    match output.status.code() {
        Some(number) => writeln!(to, "--- {number}"),
        None => writeln!(to, "--- killed"),
    }
}

fn name_of(play: Play) -> &'static str {
    match play {
        Play::NodeOverPorts => "=== node over ports\n",
        Play::ByteByByte => "=== a byte at a time\n",
        Play::SecondConnection => "=== a second connection\n",
        Play::LongLine => "=== a line that is too long\n",
        Play::NewPort => "=== another port while a neighbour is connected\n",
    }
}

fn play_with(
    alloc: Global,
    peer: &mut Peer<HostRuntime>,
    ports: MachinePorts,
    spare: u16,
    play: Play,
    to: &mut Vec<u8>,
) -> io::Result<()> {
    match play {
        Play::NodeOverPorts => node_over_ports(alloc, peer, ports, to)?,
        Play::ByteByByte => byte_by_byte(alloc, peer, ports, to)?,
        Play::SecondConnection => second_connection(alloc, peer, ports, to)?,
        Play::LongLine => long_line(alloc, peer, ports, to)?,
        Play::NewPort => new_port(alloc, peer, ports, spare, to)?,
    }
    end(peer, ports, play)
}

/// The panel ends the machine. Where the play has connected it, it isn't connected anew: a machine
/// that hasn't found the close of the first connection refuses a second one.
fn end(peer: &mut Peer<HostRuntime>, ports: MachinePorts, play: Play) -> io::Result<()> {
    if play != Play::SecondConnection && play != Play::LongLine {
        peer.connect(Way::Panel, ports.panel)?;
    }
    peer.send(Way::Panel, b"end\n", WHOLE)
}

fn node_over_ports(
    alloc: Global,
    peer: &mut Peer<HostRuntime>,
    ports: MachinePorts,
    to: &mut Vec<u8>,
) -> io::Result<()> {
    let mut text = Vec::new(alloc);
    peer.connect(Way::Downstream, ports.downstream)?;
    peer.send(Way::Downstream, DESCRIPTION, WHOLE)?;
    peer.take_until(Way::Downstream, END_OF_MESSAGE, &mut text)?;
    peer.send(Way::Downstream, NO_MESSAGE, WHOLE)?;
    peer.take_all(Way::Downstream, &mut text)?;
    tell_taken("downstream took, and was closed: ", text.as_slice(), to)?;
    Ok(())
}

fn byte_by_byte(
    alloc: Global,
    peer: &mut Peer<HostRuntime>,
    ports: MachinePorts,
    to: &mut Vec<u8>,
) -> io::Result<()> {
    let mut text = Vec::new(alloc);
    peer.connect(Way::Downstream, ports.downstream)?;
    peer.send(Way::Downstream, DESCRIPTION, 1)?;
    peer.take_until(Way::Downstream, END_OF_MESSAGE, &mut text)?;
    tell_taken("downstream took: ", text.as_slice(), to)?;
    peer.close(Way::Downstream);
    peer.wait();
    Ok(())
}

fn second_connection(
    alloc: Global,
    peer: &mut Peer<HostRuntime>,
    ports: MachinePorts,
    to: &mut Vec<u8>,
) -> io::Result<()> {
    let mut text = Vec::new(alloc);
    peer.connect(Way::Downstream, ports.downstream)?;
    peer.send(Way::Downstream, DESCRIPTION, WHOLE)?;
    peer.take_until(Way::Downstream, END_OF_MESSAGE, &mut text)?;
    tell_taken("downstream took: ", text.as_slice(), to)?;
    text.clear();
    peer.connect(Way::Upstream, ports.downstream)?;
    peer.take_all(Way::Upstream, &mut text)?;
    tell_taken("the second took, and was closed: ", text.as_slice(), to)?;
    text.clear();
    peer.connect(Way::Panel, ports.panel)?;
    peer.send(Way::Panel, b"show\n", WHOLE)?;
    peer.connect(Way::Supervisory, ports.panel)?;
    peer.take_all(Way::Supervisory, &mut text)?;
    tell_taken(
        "the second panel took, and was closed: ",
        text.as_slice(),
        to,
    )?;
    Ok(())
}

fn long_line(
    alloc: Global,
    peer: &mut Peer<HostRuntime>,
    ports: MachinePorts,
    to: &mut Vec<u8>,
) -> io::Result<()> {
    let mut text = Vec::new(alloc);
    let line = vec![in alloc; b'x'; LINE_BYTES + 1]?;
    peer.connect(Way::Panel, ports.panel)?;
    peer.send(Way::Panel, line.as_slice(), WHOLE)?;
    peer.send(Way::Panel, b"\ninsert\n", WHOLE)?;
    peer.take_until(Way::Panel, b"000001\n", &mut text)?;
    append("the panel took:\n", to)?;
    tell_log(text.as_slice(), to)?;
    append("the log:\n", to)?;
    Ok(())
}

fn new_port(
    alloc: Global,
    peer: &mut Peer<HostRuntime>,
    ports: MachinePorts,
    port: u16,
    to: &mut Vec<u8>,
) -> io::Result<()> {
    let mut text = Vec::new(alloc);
    peer.connect(Way::Downstream, ports.downstream)?;
    peer.send(Way::Downstream, DESCRIPTION, WHOLE)?;
    peer.take_until(Way::Downstream, END_OF_MESSAGE, &mut text)?;
    set_port(alloc, peer, ports, port, to)?;
    text.clear();
    peer.take_all(Way::Downstream, &mut text)?;
    tell_taken("downstream took, and was closed: ", text.as_slice(), to)?;
    text.clear();
    peer.connect(Way::Upstream, port)?;
    peer.send(Way::Upstream, DESCRIPTION, WHOLE)?;
    peer.take_until(Way::Upstream, END_OF_MESSAGE, &mut text)?;
    tell_taken("at the new port it took: ", text.as_slice(), to)?;
    Ok(())
}

/// The tool sets the port, and takes an answer that names it.
fn set_port(
    alloc: Global,
    peer: &mut Peer<HostRuntime>,
    ports: MachinePorts,
    port: u16,
    to: &mut Vec<u8>,
) -> io::Result<()> {
    let asked = format!(in alloc;
        "<Hermes><SetConfiguration DownstreamPort=\"{port}\"/></Hermes>"
    )?;
    let wanted = format!(in alloc; "<CurrentConfiguration DownstreamPort=\"{port}\"/></Hermes>")?;
    let mut text = Vec::new(alloc);
    peer.connect(Way::Configuration, ports.config)?;
    peer.send(Way::Configuration, asked.as_str().as_bytes(), WHOLE)?;
    peer.take_until(Way::Configuration, END_OF_MESSAGE, &mut text)?;
    if text.as_slice().ends_with(wanted.as_str().as_bytes()) {
        append("the tool took the new port\n", to)?;
    } else {
        tell_taken("the tool took: ", text.as_slice(), to)?;
    }
    Ok(())
}
