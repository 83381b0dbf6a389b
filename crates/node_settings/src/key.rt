use line_base::Memory;
use std::fmt;

/// What of a settings file is refused: the document as a whole, one of its keys, or a key that is
/// none of them.
#[derive(Clone, Copy, Debug, PartialEq, Eq)]
pub enum ConfigKey {
    Document,
    Number,
    MachineId,
    Lane,
    Capacity,
    Used,
    Bridge,
    Upstream,
    DownstreamPort,
    SupervisoryPort,
    PanelPort,
    ConfigPort,
    Turns,
    Drives,
    PanelAnywhere,
    Unknown,
}

/// Why it is refused.
#[derive(Clone, Copy, Debug, PartialEq, Eq)]
pub enum ConfigWhy {
    /// The document has more than 65,536 bytes.
    TooLarge,
    /// The document is no TOML.
    NotToml,
    /// The key is missing.
    Missing,
    /// The value is of another kind.
    WrongKind,
    /// The value is of the right kind, but it can't be this.
    OutOfRange,
    /// There is a key of an unknown name.
    UnknownKey,
}

/// Why settings could not be read.
#[derive(Clone, Copy, Debug, PartialEq, Eq)]
pub enum SettingsError {
    /// This key is refused for this reason.
    Refused(ConfigKey, ConfigWhy),
    Memory,
}

impl From<Memory> for SettingsError {
    ghost use Rattle.std.specs.Prelude.{◌≡◌};
    ghost use Rattle.node_settings.specs.declared.key.SettingsError.TheVariants as errors;

    ghost from_gives = { λ _ e. e ≡ errors.Memory };

    fn from(_memory: Memory) -> SettingsError {
        SettingsError::Memory
    }
}

impl fmt::Display for ConfigKey {
    ghost use Rattle.std.specs.Prelude.{Some};
    ghost use Rattle.node_settings.specs.Settings.{key_text};

    ghost output = { λ key. Some (key_text key) };

    fn fmt<W: fmt::Write>(&self, f: &mut fmt::Formatter<W>) -> fmt::Result {
        match self {
            ConfigKey::Document => f.write_str("the document"),
            ConfigKey::Number => f.write_str("number"),
            ConfigKey::MachineId => f.write_str("machine_id"),
            ConfigKey::Lane => f.write_str("lane"),
            ConfigKey::Capacity => f.write_str("capacity"),
            ConfigKey::Used => f.write_str("used"),
            ConfigKey::Bridge => f.write_str("bridge"),
            ConfigKey::Upstream => f.write_str("upstream"),
            ConfigKey::DownstreamPort => f.write_str("downstream_port"),
            ConfigKey::SupervisoryPort => f.write_str("supervisory_port"),
            ConfigKey::PanelPort => f.write_str("panel_port"),
            ConfigKey::ConfigPort => f.write_str("config_port"),
            ConfigKey::Turns => f.write_str("turns"),
            ConfigKey::Drives => f.write_str("drives"),
            ConfigKey::PanelAnywhere => f.write_str("panel_anywhere"),
            ConfigKey::Unknown => f.write_str("a key"),
        }
    }
}
