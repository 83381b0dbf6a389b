//! A bridge between machines that speak Hermes and a segment with the signals of IPC-SMEMA-9851.
//!
//! The segment's signals say whether the bridge is willing to take a board and to give one; the
//! bridge's own signals say to the segment what its two handovers do.
#![tactic(auto)]

mod bridge;
mod edges;
pub mod laws;
mod line;

pub use bridge::Bridge;
pub use edges::BridgeEdges;
pub use line::SegmentLine;
