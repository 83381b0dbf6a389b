//! What lies outside of the programs: where bytes come from and where they go, the connections of
//! a machine with the spelling of their addresses, and its clock.
//!
//! The traits say what each may answer. The memory forms tell what they hold, so that a program
//! over them is proved to its last byte. The adapters stand over the host's readers, writers,
//! sockets and clock and tell nothing: they are the trusted edge.
#![tactic(auto)]

mod account;
mod address_proper;
mod address_read;
mod address_write;
mod answer;
mod clock;
mod host_clock;
mod memory_ports;
mod memory_sink;
mod memory_source;
mod poll_list;
mod port_call;
mod ports;
mod pushing;
mod reader_source;
mod sink;
mod socket;
mod socket_ports;
mod source;
mod steady_sink;
mod steady_source;
mod way;
mod writer_sink;

pub use address_proper::address_is_proper;
pub use address_read::{address_of, port_of};
pub use address_write::write_address;
pub use answer::{GotBytes, PortAnswer};
pub use clock::{Clock, FixedClock};
pub use host_clock::HostClock;
pub use memory_ports::MemoryPorts;
pub use memory_sink::MemorySink;
pub use memory_source::MemorySource;
pub use port_call::PortCall;
pub use ports::{Got, Opened, Ports, Sent};
pub use pushing::{Pushed, push_all};
pub use reader_source::ReaderSource;
pub use sink::{Push, Sink};
pub use socket_ports::SocketPorts;
pub use source::{Pull, Source};
pub use steady_sink::SteadySink;
pub use steady_source::SteadySource;
pub use way::{Address, Way};
pub use writer_sink::WriterSink;
