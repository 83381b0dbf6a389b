use crate::machine::{MACHINE_WORD, MachinePorts, STORY_WORD};
use std::net::{Ipv4Addr, Net, OpenListener, SocketAddr, SocketAddrV4, TcpListener};
use std::process::{Child, Command, Output, Stdio};
use std::{env, fmt, io};

/// Ports at which nobody listens now: those of a machine, and one more.
pub struct FreePorts {
    pub machine: MachinePorts,
    pub spare: u16,
}

pub fn free_ports(host: &impl Net) -> io::Result<FreePorts> {
    let any = SocketAddr::V4(SocketAddrV4::new(Ipv4Addr::LOCALHOST, 0));
    let panel = TcpListener::bind(host, any)?;
    let downstream = TcpListener::bind(host, any)?;
    let config = TcpListener::bind(host, any)?;
    let spare = TcpListener::bind(host, any)?;
    let machine = MachinePorts {
        panel: panel.local_addr()?.port(),
        downstream: downstream.local_addr()?.port(),
        config: config.local_addr()?.port(),
    };
    let spare = spare.local_addr()?.port();
    Ok(FreePorts { machine, spare })
}

/// Starts this program once more, as the machine. Its log can be read.
pub fn start(rt: &HostRuntime, ports: MachinePorts) -> io::Result<Child> {
    let own = env::current_exe(rt)?;
    let panel = text_of(rt, ports.panel)?;
    let downstream = text_of(rt, ports.downstream)?;
    let config = text_of(rt, ports.config)?;
    let mut command = Command::new(rt.alloc(), &own)?;
    command.arg(MACHINE_WORD)?;
    command.arg(panel.as_str())?;
    command.arg(downstream.as_str())?;
    command.arg(config.as_str())?;
    command.stdin(Stdio::null());
    command.stdout(Stdio::piped());
    command.spawn(rt)
}

fn text_of(rt: &HostRuntime, port: u16) -> io::Result<String> {
    Ok(format!(in rt.alloc(); "{port}")?)
}

/// Starts this program once more, as the machine of a story with these settings. Its log can be
/// read.
pub fn start_in_story(rt: &HostRuntime, settings: &str) -> io::Result<Child> {
    let own = env::current_exe(rt)?;
    let mut command = Command::new(rt.alloc(), &own)?;
    command.arg(STORY_WORD)?;
    command.arg(settings)?;
    command.stdin(Stdio::null());
    command.stdout(Stdio::piped());
    command.spawn(rt)
}

/// How the machine ended and what it logged. One that was to be given up is killed first.
pub fn ended(rt: &HostRuntime, mut child: Child, gives_up: bool) -> io::Result<Output> {
    if gives_up {
        child.kill()?;
    }
    child.wait_with_output(rt.alloc())
}
