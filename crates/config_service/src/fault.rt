ghost use Rattle.std.specs.Prelude.{◌≡◌, IfOk};
ghost use Rattle.config_service.specs.Texts.{refusal_text};

use crate::attr::ConfigAttr;
use hermes_element::Why;
use line_base::{Memory, Text};
use std::alloc::Global;
use std::fmt;
use std::io::Write;
use thiserror::Error;

/// Why bytes spell no message. `read_config` says in which order the reasons are tested.
#[derive(Clone, Copy, Debug, PartialEq, Eq, Error)]
pub enum ConfigFault {
    /// They spell no element.
    Form(Why),
    /// The root's name isn't `Hermes`.
    Root,
    /// The root doesn't have exactly one child.
    Count,
    /// The message lacks an attribute that it must have.
    Missing(ConfigAttr),
    /// An attribute's value is none of its kind.
    BadValue(ConfigAttr),
}

impl ConfigFault {
    /// The text of a refusal for this reason at this index: the reason, ` at ` and the index.
    pub fn text(self, alloc: Global, at: usize) -> Result<Text, Memory>
        ensures { IfOk result (λ text. text ≡ refusal_text self at) }
    {
        let mut bytes = Vec::new(alloc);
        match write!(bytes, "{self} at {at}") {
            Ok(()) => Text::of(alloc, bytes.as_slice()),
            Err(_) => Err(Memory),
        }
    }
}

impl fmt::Display for ConfigFault {
    ghost use Rattle.std.specs.Prelude.{Some};
    ghost use Rattle.config_service.specs.Texts.{fault_text};

    ghost output = { λ fault. Some (fault_text fault) };

    fn fmt<W: fmt::Write>(&self, f: &mut fmt::Formatter<W>) -> fmt::Result {
        match self {
            ConfigFault::Form(why) => write!(f, "{why}"),
            ConfigFault::Root => f.write_str("root"),
            ConfigFault::Count => f.write_str("count"),
            ConfigFault::Missing(attr) => write!(f, "missing {attr}"),
            ConfigFault::BadValue(attr) => write!(f, "bad {attr}"),
        }
    }
}

/// Why no message was read.
#[derive(Clone, Copy, Debug, PartialEq, Eq)]
pub enum ConfigError {
    /// The bytes spell no message: at this index, for this reason.
    Refused { at: usize, why: ConfigFault },
    /// Memory was wanting.
    Memory,
}

/// Where and why an element says no message.
#[derive(Clone, Copy, Debug, PartialEq, Eq)]
pub struct ConfigRefusal {
    pub at: usize,
    pub why: ConfigFault,
}

impl From<ConfigRefusal> for ConfigError {
    ghost use Rattle.std.specs.Prelude.{◌≡◌};
    ghost use Rattle.config_service.specs.declared.fault.ConfigError.TheVariants as errors;

    ghost from_gives = { λ refusal error. error ≡ errors.Refused refusal.at refusal.why };

    fn from(refusal: ConfigRefusal) -> ConfigError {
        ConfigError::Refused {
            at: refusal.at,
            why: refusal.why,
        }
    }
}

impl From<Memory> for ConfigError {
    ghost use Rattle.std.specs.Prelude.{◌≡◌};
    ghost use Rattle.config_service.specs.declared.fault.ConfigError.TheVariants as errors;

    ghost from_gives = { λ _ error. error ≡ errors.Memory };

    fn from(_memory: Memory) -> ConfigError {
        ConfigError::Memory
    }
}
