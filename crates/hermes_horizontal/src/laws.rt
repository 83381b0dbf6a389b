//! The laws of messages and their spellings.

ghost use Rattle.std.specs.Prelude.{◌≡◌, ◌↔◌, ◌∷◌, ◌++◌, ℕ, List, length};
ghost use Rattle.hermes_horizontal.specs.Canonical.{canonical, IsProperMessage, IsWritable};
ghost use Rattle.hermes_horizontal.specs.Spelling.{IsRefused, IsRefusedBy, Spells};
ghost use Rattle.hermes_horizontal.specs.declared.fault.Fault.{Fault};
ghost use Rattle.hermes_horizontal.specs.declared.message.Message.{Message};

use crate::message::Message;
use crate::proper::parts_are_proper;

impl Message {
    /// Every part of a message is within what its type allows: texts are texts, ids have 128 bits.
    ///
    /// The call goes over the message's parts, and changes nothing.
    pub fn is_proper(&self)
        ensures { IsProperMessage self.now }
    {
        parts_are_proper(self);
    }

    /// What is written of this message is read as this message, if it is writable: the lane, the
    /// code and the places of sub boards are at most 999,999,999, a forecast has no sub boards, and
    /// the name in `Other` is none of the thirteen.
    ///
    /// Nothing else is asked of it. The call states the law: it goes over the message's parts, and
    /// changes nothing.
    pub fn reads_back(&self)
        ensures { IsWritable self.now → Spells (canonical self.now) self.now }
    {
        parts_are_proper(self);
        hermes_element::written_is_read();
    }

    /// Two writable messages are equal exactly where what is written of them is: different ones
    /// are never written as the same bytes.
    ///
    /// The call states the law: it goes over the parts of both, and changes nothing.
    pub fn spells_apart(&self, other: &Message)
        ensures { IsWritable self.now → IsWritable other.now
            → (canonical self.now ≡ canonical other.now) ↔ (self.now ≡ other.now) }
    {
        self.reads_back();
        other.reads_back();
        spelled_once();
    }
}

/// Bytes spell one message at most, writable or not.
pub fn spelled_once()
    ensures { (bytes : List ℕ) (a b : Message) → Spells bytes a → Spells bytes b → a ≡ b }
{
    hermes_element::spelled_once();
}

/// Bytes are refused at one place and for one reason at most.
pub fn refused_once()
    ensures { (bytes : List ℕ) (at place : ℕ) (why reason : Fault) → IsRefused bytes at why
        → IsRefused bytes place reason → (at ≡ place) × (why ≡ reason) }
{
    hermes_element::spelled_once();
    hermes_element::refused_once();
    hermes_element::refused_or_spelled();
}

/// No bytes both spell a message and are refused.
pub fn refused_or_spelled()
    ensures { (bytes : List ℕ) (at : ℕ) (why : Fault) (message : Message) → IsRefused bytes at why
        → Spells bytes message → ⊥ }
{
    hermes_element::spelled_once();
    hermes_element::refused_or_spelled();
}

/// Bytes with a 0 in them are refused, at their first 0 or before it.
pub fn zero_is_refused()
    ensures { (front rest : List ℕ) → IsRefusedBy (front ++ 0 ∷ rest) (length front) }
{
    hermes_element::zero_is_refused();
}
