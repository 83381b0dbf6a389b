use std::alloc::{AllocError, Global};
use std::io;
use std::net::{Ipv4Addr, Net, OpenListener, SocketAddr, SocketAddrV4, TcpListener};

/// At which ports the two machines of a story listen, and the relay between them.
#[derive(Clone, Copy)]
pub struct StoryPorts {
    pub loader_panel: u16,
    /// Where the loader listens for its neighbour.
    pub loader: u16,
    pub printer_panel: u16,
    pub printer: u16,
    pub relay: u16,
}

/// Ports at which nobody listens now.
pub fn story_ports(host: &impl Net) -> io::Result<StoryPorts> {
    let any = SocketAddr::V4(SocketAddrV4::new(Ipv4Addr::LOCALHOST, 0));
    let loader_panel = TcpListener::bind(host, any)?;
    let loader = TcpListener::bind(host, any)?;
    let printer_panel = TcpListener::bind(host, any)?;
    let printer = TcpListener::bind(host, any)?;
    let relay = TcpListener::bind(host, any)?;
    Ok(StoryPorts {
        loader_panel: loader_panel.local_addr()?.port(),
        loader: loader.local_addr()?.port(),
        printer_panel: printer_panel.local_addr()?.port(),
        printer: printer.local_addr()?.port(),
        relay: relay.local_addr()?.port(),
    })
}

/// The settings of the upstream machine. One that nobody ends is done after some hundred seconds,
/// since a turn at rest takes a millisecond.
pub fn loader(alloc: Global, ports: StoryPorts) -> Result<String, AllocError> {
    let panel = ports.loader_panel;
    let downstream = ports.loader;
    format!(in alloc;
        "number = 1\nmachine_id = \"Loader\"\nlane = 1\ncapacity = 4\npanel_port = {panel}\ndownstream_port = {downstream}\nturns = 100000\ndrives = true\n"
    )
}

/// The settings of the downstream machine, which calls the relay at its port.
pub fn printer(alloc: Global, ports: StoryPorts) -> Result<String, AllocError> {
    let panel = ports.printer_panel;
    let downstream = ports.printer;
    let relay = ports.relay;
    format!(in alloc;
        "number = 2\nmachine_id = \"Printer\"\nlane = 1\ncapacity = 4\nupstream = \"127.0.0.1:{relay}\"\npanel_port = {panel}\ndownstream_port = {downstream}\nturns = 100000\ndrives = true\n"
    )
}
