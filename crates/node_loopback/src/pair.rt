use crate::heard::Heard;
use crate::peer::{ASKS, Peer};
use crate::story_settings::StoryPorts;
use line_outside::{Got, Way};
use std::io::{self, ErrorKind};

/// How many bytes are taken of a way at a time.
const ROOM_BYTES: usize = 4096;

/// How many bytes are sent at a time.
const WHOLE: usize = 65_536;

/// One of the two machines of a story.
#[derive(Clone, Copy, PartialEq, Eq)]
pub enum Machine {
    Loader,
    Printer,
}

impl Machine {
    /// The way to its panel.
    fn panel(self) -> Way {
        match self {
            Machine::Loader => Way::Panel,
            Machine::Printer => Way::Supervisory,
        }
    }
}

/// The panels of two machines, the loader and the printer, and a relay between these.
///
/// Of the ways of the peer, Panel goes to the loader's panel, Supervisory to the printer's,
/// Downstream to the port at which the loader listens for its neighbour, and Upstream is the
/// printer's call. What comes on each is kept, and what a machine says to the other is passed on.
#[derive(Drop)]
pub struct Pair {
    peer: Peer<HostRuntime>,
    ports: StoryPorts,
    loader_panel: Heard,
    printer_panel: Heard,
    loader: Heard,
    printer: Heard,
}

impl Pair {
    pub fn new(rt: &HostRuntime, ports: StoryPorts) -> io::Result<Pair> {
        Ok(Pair {
            peer: Peer::new(rt.clone()?, rt.clone()?),
            ports,
            loader_panel: Heard::new(rt.alloc()),
            printer_panel: Heard::new(rt.alloc()),
            loader: Heard::new(rt.alloc()),
            printer: Heard::new(rt.alloc()),
        })
    }

    /// Listens for the printer, and connects to both panels.
    pub fn open(&mut self) -> io::Result<()> {
        self.peer.listen(Way::Upstream, self.ports.relay)?;
        self.peer.connect(Way::Panel, self.ports.loader_panel)?;
        self.peer
            .connect(Way::Supervisory, self.ports.printer_panel)
    }

    /// The machine's panel says a line.
    pub fn say(&mut self, machine: Machine, line: &str) -> io::Result<()> {
        self.peer.send(machine.panel(), line.as_bytes(), WHOLE)?;
        self.peer.send(machine.panel(), b"\n", WHOLE)
    }

    /// Passes on what the machines say, until the machine's panel hears these words.
    pub fn hear(&mut self, machine: Machine, words: &str) -> io::Result<()> {
        for _ in 0..ASKS {
            let found = match machine {
                Machine::Loader => self.loader_panel.finds(words),
                Machine::Printer => self.printer_panel.finds(words),
            };
            if found {
                return Ok(());
            }
            self.turn()?;
        }
        Err(io::Error::from(ErrorKind::TimedOut))
    }

    /// Passes on what the machines say, until the machine has said these words to the other.
    pub fn pass(&mut self, machine: Machine, words: &str) -> io::Result<()> {
        for _ in 0..ASKS {
            let found = match machine {
                Machine::Loader => self.loader.finds(words),
                Machine::Printer => self.printer.finds(words),
            };
            if found {
                return Ok(());
            }
            self.turn()?;
        }
        Err(io::Error::from(ErrorKind::TimedOut))
    }

    /// Whether the last word that the machine's panel heard behind these is `on`.
    pub fn is_on(&self, machine: Machine, words: &str) -> bool {
        match machine {
            Machine::Loader => self.loader_panel.was_last_on(words),
            Machine::Printer => self.printer_panel.was_last_on(words),
        }
    }

    /// Breaks the connection between the machines.
    pub fn cut(&mut self) {
        self.peer.close(Way::Upstream);
        self.peer.close(Way::Downstream);
    }

    /// Looks once at each way.
    fn turn(&mut self) -> io::Result<()> {
        for way in [Way::Panel, Way::Supervisory, Way::Downstream, Way::Upstream] {
            self.look(way)?;
        }
        self.peer.pause();
        Ok(())
    }

    /// Takes what a way has. Where the printer has called, the loader is called.
    fn look(&mut self, way: Way) -> io::Result<()> {
        let mut room = [0u8; ROOM_BYTES];
        match self.peer.poll(way, &mut room) {
            Got::NotYet => Ok(()),
            Got::Bytes(count) => self.take(way, &room[..count.min(ROOM_BYTES)]),
            Got::Arrived => self.peer.connect(Way::Downstream, self.ports.loader),
            Got::Second | Got::Closed | Got::Failed => Err(io::Error::from(ErrorKind::BrokenPipe)),
        }
    }

    fn take(&mut self, way: Way, piece: &[u8]) -> io::Result<()> {
        match way {
            Way::Panel => self.loader_panel.take(piece)?,
            Way::Supervisory => self.printer_panel.take(piece)?,
            Way::Downstream => {
                self.loader.take(piece)?;
                self.peer.send(Way::Upstream, piece, WHOLE)?;
            }
            _ => {
                self.printer.take(piece)?;
                self.peer.send(Way::Downstream, piece, WHOLE)?;
            }
        }
        Ok(())
    }
}
