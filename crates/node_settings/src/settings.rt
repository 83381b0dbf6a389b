use line_base::Text;
use line_outside::Address;

/// The settings of a machine.
#[derive(Debug, PartialEq, Eq, Drop)]
pub struct Settings {
    pub identity: Identity,
    pub places: Places,
    /// Whether its body is a segment that speaks no Hermes, whose signals it bridges.
    pub bridge: bool,
    pub connections: Connections,
    /// After how many turns it ends, 1 to 1,000,000,000,000.
    pub turns: u64,
    pub panel: Panel,
}

/// Who a machine is.
#[derive(Debug, PartialEq, Eq, Drop)]
pub struct Identity {
    /// The number in the ids that it makes, at least 1.
    pub number: u32,
    /// Its id text, of 1 to 64 bytes.
    pub machine_id: Text,
    /// The number of its lane, 1 to 999.
    pub lane: u32,
}

/// What a machine has room for.
#[derive(Clone, Copy, Debug, PartialEq, Eq)]
pub struct Places {
    /// For how many boards it has places, 1 to 1,024.
    pub capacity: u32,
    /// How many ids it made before, below 2^48.
    pub used: u64,
}

/// How a machine is connected.
#[derive(Clone, Copy, Debug, PartialEq, Eq)]
pub struct Connections {
    /// Where its upstream neighbour listens, if it has one.
    pub upstream: Option<Address>,
    /// The port at which it listens for its downstream neighbour.
    pub downstream_port: u16,
    /// The port at which it listens for its supervisory system, if it may have one.
    pub supervisory_port: Option<u16>,
    /// The port at which it listens for its operator's panel.
    pub panel_port: u16,
    /// The port at which it listens for who reads and changes its neighbours' addresses, if any may.
    pub config_port: Option<u16>,
}

/// What its operator's panel is told, and from where it may connect.
#[derive(Clone, Copy, Debug, PartialEq, Eq)]
pub struct Panel {
    /// Whether the drives are told, to the panel and in the log.
    pub drives: bool,
    /// Whether a panel may connect from another computer.
    pub anywhere: bool,
}
