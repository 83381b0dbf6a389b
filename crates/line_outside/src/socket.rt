ghost use Rattle.std.specs.Prelude.{◌≤◌, ◌<◌, length};
ghost use Rattle.line_outside.specs.Ports.{IsGotWithin, IsSentWithin, IsRefusedWithin, IsGotBare, IsSentBare};

use crate::ports::{Got, Sent};
use mio::net::{TcpListener, TcpStream};
use std::io::{self, ErrorKind, Read, Write};
use std::net::Shutdown;

/// How many bytes are read at a time of a connection that is closed.
const DRAIN_BYTES: usize = 512;

/// How often at most a connection that is closed is read once more.
const DRAINS: u32 = 64;

/// The sockets of one way: where it listens, the connection that stands or was asked for, and one
/// that waits to be refused.
#[derive(Drop)]
pub struct Socket {
    listener: Option<TcpListener>,
    stream: Option<TcpStream>,
    is_asked: bool,
    second: Option<TcpStream>,
}

impl Socket {
    pub fn new() -> Socket {
        Socket {
            listener: None,
            stream: None,
            is_asked: false,
            second: None,
        }
    }

    pub fn set_listener(&mut self, listener: TcpListener) {
        self.listener = Some(listener);
    }

    /// A connection that was asked for, which may still come or fail.
    pub fn set_asked(&mut self, stream: TcpStream) {
        self.stream = Some(stream);
        self.is_asked = true;
    }

    /// Looks once at what is there.
    pub fn poll(&mut self, room: &mut [u8]) -> Got
        requires { 0 < length room.old }
        ensures { IsGotWithin (length room.new) result }
    {
        if self.is_asked {
            return self.poll_asked();
        }
        match &mut self.stream {
            None => self.accept_first(),
            Some(stream) => match stream.read(room) {
                Ok(0) => Got::Closed,
                Ok(count) => Got::Bytes(count),
                Err(error) => match error.kind() {
                    ErrorKind::WouldBlock | ErrorKind::Interrupted => self.accept_second(),
                    kind => got_of(kind),
                },
            },
        }
    }

    /// Whether the connection that was asked for stands now. One that failed is let go.
    fn poll_asked(&mut self) -> Got
        ensures { IsGotBare result }
    {
        let got = asked_got(&self.stream);
        self.is_asked = got == Got::NotYet;
        if got == Got::Closed || got == Got::Failed {
            self.stream = None;
        }
        got
    }

    fn accept_first(&mut self) -> Got
        ensures { IsGotBare result }
    {
        match accepted(&self.listener) {
            Ok(Some(stream)) => {
                self.stream = Some(stream);
                Got::Arrived
            }
            Ok(None) => Got::NotYet,
            Err(_) => Got::Failed,
        }
    }

    /// Takes another connection, if none waits to be refused.
    fn accept_second(&mut self) -> Got
        ensures { IsGotBare result }
    {
        if self.second.is_some() {
            return Got::NotYet;
        }
        match accepted(&self.listener) {
            Ok(Some(stream)) => {
                self.second = Some(stream);
                Got::Second
            }
            Ok(None) => Got::NotYet,
            Err(_) => Got::Failed,
        }
    }

    /// Tries once to send the first bytes of a piece.
    pub fn send(&mut self, piece: &[u8]) -> Sent
        requires { 0 < length piece.now }
        ensures { IsSentWithin piece.now result }
    {
        if self.is_asked {
            return Sent::NotYet;
        }
        match &mut self.stream {
            Some(stream) => send_to(stream, piece),
            None => Sent::Closed,
        }
    }

    /// Tries once to send a piece to the connection that waits to be refused, and closes that.
    pub fn refuse(&mut self, piece: &[u8]) -> Sent
        ensures { IsRefusedWithin piece.now result }
    {
        let second = self.second.take();
        if piece.is_empty() {
            part(second);
            return Sent::Took(0);
        }
        match second {
            Some(mut stream) => {
                let sent = send_to(&mut stream, piece);
                part(Some(stream));
                sent
            }
            None => Sent::Closed,
        }
    }

    /// Closes the connection, or lets go the one that was asked for.
    pub fn close(&mut self) {
        let stream = self.stream.take();
        self.is_asked = false;
        part(stream);
    }
}

/// The next connection that came, if one did.
fn accepted(listener: &Option<TcpListener>) -> io::Result<Option<TcpStream>> {
    let Some(listener) = listener else {
        return Ok(None);
    };
    match listener.accept() {
        Ok((stream, _address)) => {
            let _ = stream.set_nodelay(true);
            Ok(Some(stream))
        }
        // a connection that was gone again before it was taken is none
        Err(error) => match error.kind() {
            ErrorKind::WouldBlock | ErrorKind::Interrupted | ErrorKind::ConnectionAborted => {
                Ok(None)
            }
            _ => Err(error),
        },
    }
}

/// How the connection that was asked for stands.
fn asked_got(stream: &Option<TcpStream>) -> Got
    ensures { IsGotBare result }
{
    let Some(stream) = stream else {
        return Got::Closed;
    };
    match stream.take_error() {
        Ok(None) => {}
        Ok(Some(_)) => return Got::Closed,
        Err(_) => return Got::Failed,
    }
    match stream.peer_addr() {
        Ok(_) => {
            let _ = stream.set_nodelay(true);
            Got::Arrived
        }
        Err(error) => match error.kind() {
            ErrorKind::NotConnected => Got::NotYet,
            _ => Got::Closed,
        },
    }
}

/// What a read that failed means.
fn got_of(kind: ErrorKind) -> Got
    ensures { IsGotBare result }
{
    match kind {
        ErrorKind::ConnectionReset | ErrorKind::ConnectionAborted => Got::Closed,
        _ => Got::Failed,
    }
}

/// Tries once to send the first bytes of a piece.
fn send_to(stream: &mut TcpStream, piece: &[u8]) -> Sent
    requires { 0 < length piece.now }
    ensures { IsSentWithin piece.now result }
{
    match stream.write(piece) {
        Ok(0) => Sent::NotYet,
        Ok(count) => Sent::Took(count),
        Err(error) => sent_of(error.kind()),
    }
}

/// What a write that failed means.
fn sent_of(kind: ErrorKind) -> Sent
    ensures { IsSentBare result }
{
    match kind {
        ErrorKind::WouldBlock | ErrorKind::Interrupted => Sent::NotYet,
        ErrorKind::BrokenPipe | ErrorKind::ConnectionReset | ErrorKind::ConnectionAborted => {
            Sent::Closed
        }
        _ => Sent::Failed,
    }
}

/// Closes a connection so that what was sent last still arrives: a socket that is closed with
/// bytes unread would throw away what its peer has not read yet.
fn part(stream: Option<TcpStream>) {
    let Some(mut stream) = stream else {
        return;
    };
    let _ = stream.shutdown(Shutdown::Write);
    let mut room = [0u8; DRAIN_BYTES];
    for _ in 0..DRAINS {
        match stream.read(&mut room) {
            Ok(0) | Err(_) => return,
            Ok(_) => {}
        }
    }
}
