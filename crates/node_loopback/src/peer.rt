ghost use Rattle.std.specs.Prelude.{◌<◌, length};

use line_outside::{Address, Got, Opened, Ports, Sent, SocketPorts, Way};
use std::io::{self, ErrorKind};
use std::net::Net;
use std::rt::Clock;
use std::thread;
use std::time::Duration;

/// How often a socket is asked at most, with a pause of a millisecond behind each time.
pub const ASKS: u32 = 20_000;

/// How long the pause is, in milliseconds.
const PAUSE: u64 = 1;

/// How long a wait is, in milliseconds.
const WAIT: u64 = 2000;

/// The other ends of a machine's connections, on this computer.
#[derive(Drop)]
pub struct Peer<R: Net + Clock + Drop> {
    host: R,
    ports: SocketPorts<R>,
}

impl<R: Net + Clock + Drop> Peer<R> {
    pub fn new(host: R, own: R) -> Peer<R> {
        Peer {
            host,
            ports: SocketPorts::new(own),
        }
    }

    /// Pauses for a millisecond.
    pub fn pause(&self) {
        thread::sleep(&self.host, Duration::from_millis(PAUSE));
    }

    /// Waits, so that the machine takes what was done before more is done: what its panel says
    /// comes before what it finds of a neighbour.
    pub fn wait(&self) {
        thread::sleep(&self.host, Duration::from_millis(WAIT));
    }

    /// Listens for connections of a way, from this computer alone.
    pub fn listen(&mut self, way: Way, port: u16) -> io::Result<()> {
        match self.ports.listen(way, Address::at_loopback(port)) {
            Opened::Done => Ok(()),
            Opened::Failed => Err(io::Error::from(ErrorKind::AddrInUse)),
        }
    }

    /// Looks once at what is there for a way.
    pub fn poll(&mut self, way: Way, room: &mut [u8]) -> Got
        requires { 0 < length room.old }
    {
        self.ports.poll(way, room)
    }

    /// Connects to a port of this computer, once somebody listens there.
    pub fn connect(&mut self, way: Way, port: u16) -> io::Result<()> {
        let address = Address::at_loopback(port);
        let mut room = [0u8; 1];
        for _ in 0..ASKS {
            if self.ports.connect(way, address) == Opened::Done
                && self.found(way, &mut room)? == Got::Arrived
            {
                return Ok(());
            }
            self.ports.close(way);
            self.pause();
        }
        Err(io::Error::from(ErrorKind::TimedOut))
    }

    /// What a way has, once it has something.
    fn found(&mut self, way: Way, room: &mut [u8]) -> io::Result<Got>
        requires { 0 < length room.old }
    {
        for _ in 0..ASKS {
            let got = self.ports.poll(way, room);
            if got != Got::NotYet {
                return Ok(got);
            }
            self.pause();
        }
        Err(io::Error::from(ErrorKind::TimedOut))
    }

    /// Sends all of these bytes, so many of them at a time.
    pub fn send(&mut self, way: Way, bytes: &[u8], at_a_time: usize) -> io::Result<()> {
        let mut rest = bytes;
        for _ in 0..ASKS {
            if rest.is_empty() {
                return Ok(());
            }
            let (piece, _) = rest.split_at(at_a_time.min(rest.len()));
            if piece.is_empty() {
                return Ok(());
            }
            match self.ports.send(way, piece) {
                Sent::Took(count) => rest = &rest[count.min(rest.len())..],
                Sent::NotYet => {}
                Sent::Closed | Sent::Failed => {
                    return Err(io::Error::from(ErrorKind::BrokenPipe));
                }
            }
            self.pause();
        }
        Err(io::Error::from(ErrorKind::TimedOut))
    }

    /// Takes bytes until they end with these.
    pub fn take_until(&mut self, way: Way, end: &[u8], to: &mut Vec<u8>) -> io::Result<()> {
        for _ in 0..ASKS {
            if !self.take_some(way, to)? {
                return Err(io::Error::from(ErrorKind::UnexpectedEof));
            }
            if to.as_slice().ends_with(end) {
                return Ok(());
            }
        }
        Err(io::Error::from(ErrorKind::TimedOut))
    }

    /// Takes bytes until the machine closes.
    pub fn take_all(&mut self, way: Way, to: &mut Vec<u8>) -> io::Result<()> {
        for _ in 0..ASKS {
            if !self.take_some(way, to)? {
                return Ok(());
            }
        }
        Err(io::Error::from(ErrorKind::TimedOut))
    }

    /// Takes the bytes that come next. Answers whether the connection still stands.
    fn take_some(&mut self, way: Way, to: &mut Vec<u8>) -> io::Result<bool> {
        let mut room = [0u8; 512];
        match self.found(way, &mut room)? {
            Got::Bytes(count) => {
                to.extend_from_slice(&room[..count.min(512)])?;
                Ok(true)
            }
            Got::Closed => Ok(false),
            _ => Err(io::Error::from(ErrorKind::InvalidData)),
        }
    }

    /// Closes a connection.
    pub fn close(&mut self, way: Way) {
        self.ports.close(way);
    }
}
