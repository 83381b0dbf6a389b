//! One machine of a board line: the two ends of its sessions, the two halves of its handovers, and
//! the records of the boards that it keeps, joined into one step.
//!
//! A step reads the unread sensor events in order, takes one input, makes the announcements that
//! are due, and, at a bridge, sets its own signals. What it did is a list of acts.
#![tactic(auto)]

mod act;
mod announce;
mod boards;
mod bridge;
mod connect;
mod desk;
mod forecasts;
mod halves;
mod hear;
mod hermes;
mod inbox;
mod information;
mod input;
mod lane;
pub mod laws;
mod may;
mod node;
mod passage;
mod piece;
mod profile;
mod reads;
mod session;
mod shared;
mod shelf;
mod step;
mod supervising;
mod word;

pub use act::{Act, Deed, Outputs, Setting, Signal, ToSupervisor};
pub use hermes::HermesState;
pub use input::{Input, No};
pub use node::Node;
pub use passage::{Given, Passage};
pub use profile::NodeProfile;
pub use shared::Shared;
pub use smema_bridge::SegmentLine;
