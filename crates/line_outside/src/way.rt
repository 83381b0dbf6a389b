ghost use Rattle.std.specs.Prelude.{◌≡◌};
ghost use Rattle.line_outside.specs.Listening.{at_all, at_loopback};

/// A connection of a machine, named by who is at its other end.
#[derive(Clone, Copy, Debug, PartialEq, Eq)]
pub enum Way {
    /// The operator's panel connects here.
    Panel,
    /// The upstream neighbour, to which the machine connects.
    Upstream,
    /// The downstream neighbour, which connects to the machine.
    Downstream,
    /// The supervisory system, which connects to the machine.
    Supervisory,
    /// Who reads and changes where the machine's neighbours are, and connects to it for that.
    Configuration,
}

/// Where a neighbour or the machine itself listens: an address of version 4 of the internet
/// protocol, and a port.
#[derive(Clone, Copy, Debug, PartialEq, Eq)]
pub struct Address {
    /// The four parts of the address, as they are written from the left.
    pub host: [u8; 4],
    /// The port.
    pub port: u16,
}

impl Address {
    /// A port that only programs of the same computer reach.
    pub fn at_loopback(port: u16) -> Address
        ensures { result ≡ at_loopback port }
    {
        Address {
            host: [127, 0, 0, 1],
            port,
        }
    }

    /// A port at every address that the computer has.
    pub fn at_all(port: u16) -> Address
        ensures { result ≡ at_all port }
    {
        Address {
            host: [0, 0, 0, 0],
            port,
        }
    }
}
