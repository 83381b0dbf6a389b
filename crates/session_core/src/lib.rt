//! The two ends of a session: the handshake, the signs of life, and which messages a standing
//! session passes on.
//!
//! A session takes what comes in on a connection and answers what its machine is to do. Messages
//! are moved, and no call takes memory but the copy of a ping's Id.
#![tactic(auto)]

mod actions;
mod breach;
mod handling;
pub mod laws;
mod message;
mod ping;
mod session;
mod state;

pub use actions::{Action, Actions, Tell};
pub use breach::Breach;
pub use ping::PingId;
pub use session::Session;
pub use state::SessionState;
