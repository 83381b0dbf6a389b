ghost use Rattle.std.specs.Prelude.{◌≡◌, ◌≤◌, ◌<◌, None, length};
ghost use Rattle.std.specs.Bool.{OnTrue};
ghost use Rattle.line_outside.specs.Ports.{IsGotWithin, HasGotCause, HasSentCause, HasOpenCause};
ghost use Rattle.line_outside.specs.Faults.{Rises};

use crate::ports::{Got, Opened, Ports, Sent};
use crate::socket::Socket;
use crate::way::{Address, Way};
use mio::net::{TcpListener, TcpStream};
use std::net::{Ipv4Addr, Net, SocketAddr, SocketAddrV4};
use std::thread;
use std::time::{Clock, Duration};

/// How long the ports pause where nothing comes any more, in milliseconds.
const PAUSE: u64 = 1;

/// How many turns in a row find nothing before they pause. A peer that answers at once is awaited
/// without a pause.
const QUIET_TURNS: u32 = 64;

/// Ports over the host's sockets, which never block. They tell nothing of what was called and
/// answered.
///
/// A turn of polls begins at the way Panel. Where in 64 turns in a row nothing came and nothing
/// was sent they pause for about a millisecond in each turn that follows, so that a machine at
/// rest leaves the processor alone.
#[derive(Drop)]
pub struct SocketPorts<R: Net + Clock> {
    host: R,
    sockets: [Socket; 5],
    /// How many turns in a row found nothing, this one counted.
    quiet_turns: u32,
    faults: u64,
}

impl<R: Net + Clock> SocketPorts<R> {
    /// Ports that listen nowhere and have no connections yet.
    pub fn new(host: R) -> SocketPorts<R>
        ensures { result.faults ≡ 0 }
    {
        SocketPorts {
            host,
            sockets: [
                Socket::new(),
                Socket::new(),
                Socket::new(),
                Socket::new(),
                Socket::new(),
            ],
            quiet_turns: 0,
            faults: 0,
        }
    }

    /// Counts a fault.
    fn fault(&mut self)
        ensures { Rises self.old.faults self.new.faults }
    {
        self.faults = self.faults.saturating_add(1);
    }

    /// Begins a turn: pauses where nothing happened in the last ones.
    fn begin_turn(&mut self)
        ensures { self.new.faults ≡ self.old.faults }
    {
        if self.quiet_turns < QUIET_TURNS {
            self.quiet_turns += 1;
        } else {
            thread::sleep(&self.host, Duration::from_millis(PAUSE));
        }
    }

    /// What became of a piece, with a fault counted where it failed.
    fn note_sent(&mut self, sent: Sent) -> Sent
        ensures same { result ≡ sent }
        ensures cause { HasSentCause self.old.faults self.new.faults result }
    {
        match sent {
            Sent::Took(_) => self.quiet_turns = 0,
            Sent::Failed => self.fault(),
            Sent::NotYet | Sent::Closed => {}
        }
        sent
    }
}

/// Where the socket of a way lies.
fn place_of(way: Way) -> usize
    ensures { result < 5 }
{
    match way {
        Way::Panel => 0,
        Way::Upstream => 1,
        Way::Downstream => 2,
        Way::Supervisory => 3,
        Way::Configuration => 4,
    }
}

/// An address as the host's sockets have it.
fn socket_address(address: Address) -> SocketAddr {
    let [a, b, c, d] = address.host;
    SocketAddr::V4(SocketAddrV4::new(Ipv4Addr::new(a, b, c, d), address.port))
}

impl<R: Net + Clock> Ports for SocketPorts<R> {
    ghost given = { λ _. None };

    ghost faults = { λ ports. ports.faults };

    ghost quiet = { λ _ _. None };

    ghost stuck = { λ _ _. None };

    fn listen(&mut self, way: Way, address: Address) -> Opened {
        match TcpListener::bind(&self.host, socket_address(address)) {
            Ok(listener) => {
                self.sockets[place_of(way)].set_listener(listener);
                Opened::Done
            }
            Err(_) => {
                self.fault();
                Opened::Failed
            }
        }
    }

    fn connect(&mut self, way: Way, address: Address) -> Opened {
        match TcpStream::connect(&self.host, socket_address(address)) {
            Ok(stream) => {
                self.sockets[place_of(way)].set_asked(stream);
                Opened::Done
            }
            Err(_) => {
                self.fault();
                Opened::Failed
            }
        }
    }

    fn poll(&mut self, way: Way, room: &mut [u8]) -> Got {
        if way == Way::Panel {
            self.begin_turn();
        }
        let got = self.sockets[place_of(way)].poll(room);
        match got {
            Got::NotYet => {}
            Got::Failed => self.fault(),
            _ => self.quiet_turns = 0,
        }
        got
    }

    fn send(&mut self, way: Way, piece: &[u8]) -> Sent {
        let sent = self.sockets[place_of(way)].send(piece);
        self.note_sent(sent)
    }

    fn refuse(&mut self, way: Way, piece: &[u8]) -> Sent {
        let sent = self.sockets[place_of(way)].refuse(piece);
        self.note_sent(sent)
    }

    fn close(&mut self, way: Way) {
        self.sockets[place_of(way)].close();
    }
}
