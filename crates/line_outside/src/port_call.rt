use crate::ports::{Got, Opened, Sent};
use crate::way::{Address, Way};

/// A call of ports in memory with its answer. The bytes that a poll gave, and those of a piece,
/// lie beside it.
#[derive(Clone, Copy, Debug, PartialEq, Eq)]
pub enum PortCall {
    Listens {
        way: Way,
        address: Address,
        opened: Opened,
    },
    Connects {
        way: Way,
        address: Address,
        opened: Opened,
    },
    Polls {
        way: Way,
        room: usize,
        got: Got,
    },
    Sends {
        way: Way,
        piece: usize,
        sent: Sent,
    },
    Refuses {
        way: Way,
        piece: usize,
        sent: Sent,
    },
    Closes {
        way: Way,
    },
}
