//! What is said of the end of a run.

use crate::calls::{tell_address, written};
use line_base::Memory;
use line_outside::{Address, MemorySink};
use node_cli::{BookStatus, BookWhy, ConfigKey, ConfigWhy, NodeStatus, tell_book_end};
use std::alloc::Global;
use std::io::Write;

/// How many bytes of what is said are kept.
const SAID_BYTES: usize = 4096;

/// Tells the end of this name, and what is said of it into a sink of which these pushes fail.
pub fn tell_named(
    alloc: Global,
    name: &str,
    faults: &[u64],
    to: &mut Vec<u8>,
) -> Result<(), Memory> {
    tell_status(alloc, status_of(name), faults, to)
}

/// An end by its name. Those that name a part name the lane, an address, and a byte of the book.
fn status_of(name: &str) -> BookStatus {
    match name {
        "BookFault" => BookStatus::BookFault,
        "BookRefused" => BookStatus::BookRefused {
            at: 1507,
            why: BookWhy::NotPossible,
        },
        "BookFull" => BookStatus::BookFull,
        "BookBusy" => BookStatus::BookBusy,
        name => BookStatus::Node(node_status_of(name)),
    }
}

fn node_status_of(name: &str) -> NodeStatus {
    match name {
        "Usage" => NodeStatus::Usage,
        "ConfigRefused" => NodeStatus::ConfigRefused(ConfigKey::Lane, ConfigWhy::OutOfRange),
        "ReadFault" => NodeStatus::ReadFault,
        "LogFault" => NodeStatus::LogFault,
        "Memory" => NodeStatus::Memory,
        "ListenFault" => NodeStatus::ListenFault(Address {
            host: [10, 0, 0, 7],
            port: 50_100,
        }),
        "TurnsUsed" => NodeStatus::TurnsUsed,
        _ => NodeStatus::Done,
    }
}

/// Tells how a run ends, and what is said of it.
pub fn tell_status(
    alloc: Global,
    status: BookStatus,
    faults: &[u64],
    to: &mut Vec<u8>,
) -> Result<(), Memory> {
    name_status(status, to)?;
    let mut said = MemorySink::new(alloc, SAID_BYTES, faults)?;
    let answer = tell_book_end(alloc, status, &mut said);
    written(to.extend_from_slice(said.contents().unwrap_or(b"untold")))?;
    match answer {
        Ok(()) => Ok(()),
        Err(error) => written(write!(to, "! {error:?}\n")),
    }
}

fn name_status(status: BookStatus, to: &mut Vec<u8>) -> Result<(), Memory> {
    match status {
        BookStatus::Node(status) => name_node_status(status, to),
        BookStatus::BookRefused { at, why } => {
            written(write!(to, "--- BookRefused, {at}: {why:?}\n"))
        }
        status => written(write!(to, "--- {status:?}\n")),
    }
}

/// Tells how a run without a book ends.
pub fn name_node_status(status: NodeStatus, to: &mut Vec<u8>) -> Result<(), Memory> {
    match status {
        NodeStatus::ConfigRefused(key, why) => {
            written(write!(to, "--- ConfigRefused, {key}: {why:?}\n"))
        }
        NodeStatus::ListenFault(address) => {
            written(write!(to, "--- ListenFault, "))?;
            tell_address(address, to)?;
            written(write!(to, "\n"))
        }
        status => written(write!(to, "--- {status:?}\n")),
    }
}
