ghost use Rattle.std.specs.Prelude.{◌≡◌, IfOk};
ghost use Rattle.hermes_horizontal.specs.Texts.{message_refusal_text};

use crate::attr::Attr;
use hermes_element::Why;
use line_base::{Memory, Text};
use std::alloc::Global;
use std::fmt;
use std::io::Write;
use thiserror::Error;

/// Why bytes spell no message. `read_horizontal` says in which order the reasons are tested.
#[derive(Clone, Copy, Debug, PartialEq, Eq, Error)]
pub enum Fault {
    /// They spell no element.
    Form(Why),
    /// The root's name isn't `Hermes`.
    Root,
    /// The root doesn't have exactly one child.
    Count,
    /// The message lacks an attribute that it must have.
    Missing(Attr),
    /// An attribute's value is none of its kind.
    BadValue(Attr),
}

impl Fault {
    /// The text of a refusal for this reason at this index: the reason, ` at ` and the index. It
    /// is what `MessageError::Refused` displays.
    pub fn text(self, alloc: Global, at: usize) -> Result<Text, Memory>
        ensures { IfOk result (λ text. text ≡ message_refusal_text self at) }
    {
        let mut bytes = Vec::new(alloc);
        match write!(bytes, "{self} at {at}") {
            Ok(()) => Text::of(alloc, bytes.as_slice()),
            Err(_) => Err(Memory),
        }
    }
}

impl fmt::Display for Fault {
    ghost use Rattle.std.specs.Prelude.{Some};
    ghost use Rattle.hermes_horizontal.specs.Texts.{fault_text};

    ghost output = { λ fault. Some (fault_text fault) };

    fn fmt<W: fmt::Write>(&self, f: &mut fmt::Formatter<W>) -> fmt::Result {
        match self {
            Fault::Form(why) => write!(f, "{why}"),
            Fault::Root => f.write_str("root"),
            Fault::Count => f.write_str("count"),
            Fault::Missing(attr) => write!(f, "missing {attr}"),
            Fault::BadValue(attr) => write!(f, "bad {attr}"),
        }
    }
}

/// Why no message was read.
#[derive(Clone, Copy, Debug, PartialEq, Eq, Error)]
pub enum MessageError {
    /// The bytes spell no message: at this index, for this reason.
    Refused { at: usize, why: Fault },
    /// Memory was wanting.
    Memory,
}

impl fmt::Display for MessageError {
    ghost use Rattle.std.specs.Prelude.{Some};
    ghost use Rattle.hermes_horizontal.specs.Texts.{message_error_text};

    ghost output = { λ error. Some (message_error_text error) };

    fn fmt<W: fmt::Write>(&self, f: &mut fmt::Formatter<W>) -> fmt::Result {
        match self {
            MessageError::Refused { at, why } => write!(f, "{why} at {at}"),
            MessageError::Memory => f.write_str("out of memory"),
        }
    }
}

/// Where and why an element says no message.
#[derive(Clone, Copy, Debug, PartialEq, Eq)]
pub struct Refusal {
    pub at: usize,
    pub why: Fault,
}

impl From<Refusal> for MessageError {
    ghost use Rattle.std.specs.Prelude.{◌≡◌};
    ghost use Rattle.hermes_horizontal.specs.declared.fault.MessageError.TheVariants as errors;

    ghost from_gives = { λ refusal error. error ≡ errors.Refused refusal.at refusal.why };

    fn from(refusal: Refusal) -> MessageError {
        MessageError::Refused {
            at: refusal.at,
            why: refusal.why,
        }
    }
}

impl From<Memory> for MessageError {
    ghost use Rattle.std.specs.Prelude.{◌≡◌};
    ghost use Rattle.hermes_horizontal.specs.declared.fault.MessageError.TheVariants as errors;

    ghost from_gives = { λ _ error. error ≡ errors.Memory };

    fn from(_memory: Memory) -> MessageError {
        MessageError::Memory
    }
}
