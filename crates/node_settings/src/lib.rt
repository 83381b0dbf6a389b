//! The settings of a machine over TCP: what its file says, or why it is refused.
#![tactic(auto)]

mod key;
mod read;
mod settings;
mod value;

pub use key::{ConfigKey, ConfigWhy, SettingsError};
pub use read::{MOST_SETTINGS_BYTES, read_settings};
pub use settings::{Connections, Identity, Panel, Places, Settings};
