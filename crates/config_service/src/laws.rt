//! The laws of messages and their spellings.

ghost use Rattle.std.specs.Prelude.{◌≡◌, ℕ, List};
ghost use Rattle.config_service.specs.Canonical.{canonical, IsWritable};
ghost use Rattle.config_service.specs.Spelling.{IsRefused, Spells};
ghost use Rattle.config_service.specs.declared.fault.ConfigFault.{ConfigFault};
ghost use Rattle.config_service.specs.declared.message.ConfigMessage.{ConfigMessage};

use crate::message::ConfigMessage;
use crate::proper::parts_are_proper;

impl ConfigMessage {
    /// What is written of this message is read as this message, if it is writable: its ports aren't
    /// 0, its code is at most 999,999,999, and the name in `Other` is none of the four.
    ///
    /// Nothing else is asked of it. The call states the law: it goes over the message's parts, and
    /// changes nothing.
    pub fn reads_back(&self)
        ensures { IsWritable self.now → Spells (canonical self.now) self.now }
    {
        parts_are_proper(self);
        hermes_element::written_is_read();
    }
}

/// Bytes spell one message at most, writable or not.
pub fn spelled_once()
    ensures { (bytes : List ℕ) (a b : ConfigMessage) → Spells bytes a → Spells bytes b → a ≡ b }
{
    hermes_element::spelled_once();
}

/// Bytes are refused at one place and for one reason at most.
pub fn refused_once()
    ensures { (bytes : List ℕ) (at place : ℕ) (why reason : ConfigFault) → IsRefused bytes at why
        → IsRefused bytes place reason → (at ≡ place) × (why ≡ reason) }
{
    hermes_element::spelled_once();
    hermes_element::refused_once();
    hermes_element::refused_or_spelled();
}

/// No bytes both spell a message and are refused.
pub fn refused_or_spelled()
    ensures { (bytes : List ℕ) (at : ℕ) (why : ConfigFault) (message : ConfigMessage)
        → IsRefused bytes at why → Spells bytes message → ⊥ }
{
    hermes_element::spelled_once();
    hermes_element::refused_or_spelled();
}
