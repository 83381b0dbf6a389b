//! The configuration service: its messages, read exactly from the bytes of one element, refused
//! with a place and a reason, and written in their one canonical spelling; and what they ask of the
//! settings of a machine's two neighbours.
#![tactic(auto)]

mod attr;
mod config;
mod fault;
mod find;
mod kind;
mod laws;
mod message;
mod proper;
mod read;
mod rows;
mod write;

pub use attr::ConfigAttr;
pub use config::{Config, Plan, Resets};
pub use fault::{ConfigError, ConfigFault};
pub use kind::ConfigKind;
pub use laws::{refused_once, refused_or_spelled, spelled_once};
pub use message::{ConfigBody, ConfigMessage, Settings};
pub use read::read_config;
pub use write::write_config;
