ghost use Rattle.std.specs.Prelude.{◌≡◌};
ghost use Rattle.node_run.specs.Status.{exit_number};

use line_outside::Address;
use node_settings::{ConfigKey, ConfigWhy};

/// How the program `node` ends.
#[derive(Clone, Copy, Debug, PartialEq, Eq)]
pub enum NodeStatus {
    /// The panel said `end`.
    Done,
    /// There isn't one word.
    Usage,
    /// The settings are refused: this key, for this reason.
    ConfigRefused(ConfigKey, ConfigWhy),
    /// The settings could not be read.
    ReadFault,
    /// The log could not be written.
    LogFault,
    /// Memory was wanting.
    Memory,
    /// This address could not be listened at.
    ListenFault(Address),
    /// All turns of the settings were done.
    TurnsUsed,
}

impl NodeStatus {
    /// The number with which the program ends.
    pub fn exit_number(self) -> u8
        ensures { result ≡ exit_number self }
    {
        match self {
            NodeStatus::Done => 0,
            NodeStatus::Usage => 2,
            NodeStatus::ConfigRefused(_, _) => 3,
            NodeStatus::ReadFault => 4,
            NodeStatus::LogFault => 5,
            NodeStatus::Memory => 6,
            NodeStatus::ListenFault(_) => 7,
            NodeStatus::TurnsUsed => 8,
        }
    }
}
