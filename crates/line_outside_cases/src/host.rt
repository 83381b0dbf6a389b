ghost use Rattle.std.specs.Prelude.{◌≤◌, IfOk};

use std::alloc::{AllocError, Global};
use std::io::{self, ErrorKind, Read, Write};

/// What the host does at one call.
#[derive(Clone, Copy)]
enum Turn {
    /// It gives or takes at most so many bytes.
    Moves(usize),
    Fails(ErrorKind),
}

const TURNS: [Turn; 6] = [
    Turn::Moves(2),
    Turn::Fails(ErrorKind::Interrupted),
    Turn::Moves(3),
    Turn::Fails(ErrorKind::ConnectionReset),
    Turn::Moves(1),
    Turn::Moves(0),
];

/// A reader and a writer of the host's that does all this in turn.
#[derive(Drop)]
pub struct Host {
    calls: usize,
    bytes: Vec<u8>,
}

impl Host {
    pub fn new(alloc: Global) -> Host {
        Host {
            calls: 0,
            bytes: Vec::new(alloc),
        }
    }

    /// What was written.
    pub fn bytes(&self) -> &[u8] {
        self.bytes.as_slice()
    }

    fn turn(&mut self, room: usize) -> io::Result<usize>
        ensures { IfOk result (λ count. count ≤ room) }
    {
        let turn = TURNS.get(self.calls).copied().unwrap_or(Turn::Moves(0));
        self.calls = self.calls.saturating_add(1);
        match turn {
            Turn::Moves(count) => Ok(count.min(room)),
            Turn::Fails(kind) => Err(io::Error::from(kind)),
        }
    }

    fn append(&mut self, piece: &[u8]) -> Result<(), AllocError> {
        self.bytes.extend_from_slice(piece)
    }
}

impl Read for Host {
    fn read(&mut self, buf: &mut [u8]) -> io::Result<usize> {
        let count = self.turn(buf.len())?;
        for byte in &mut buf[..count] {
            *byte = b'x';
        }
        Ok(count)
    }
}

impl Write for Host {
    fn write(&mut self, buf: &[u8]) -> io::Result<usize> {
        let count = self.turn(buf.len())?;
        self.append(&buf[..count])?;
        Ok(count)
    }

    fn flush(&mut self) -> io::Result<()> {
        Ok(())
    }
}
