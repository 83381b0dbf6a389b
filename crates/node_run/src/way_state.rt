ghost use Rattle.std.specs.Prelude.{◌≡◌, ◌≤◌, ◌++◌, length, drop, OnOk};
ghost use Rattle.machine_log.specs.Texts.{news_lines};
ghost use Rattle.node_run.specs.State.{WayValue, at_rest};
ghost use Rattle.hermes_horizontal.specs.Canonical.{canonical};
ghost use Rattle.hermes_vertical.specs.Canonical.{canonical as vertical_canonical};
ghost use Rattle.config_service.specs.Canonical.{canonical as config_canonical};
ghost use Rattle.supervised_end.specs.Channel.{is_empty};
ghost use Rattle.node_run.specs.Next.{is_due, has_ended};

use config_service::{ConfigMessage, write_config};
use hermes_horizontal::{Message, write_horizontal};
use hermes_vertical::{VerticalMessage, write_vertical};
use line_base::Memory;
use machine_log::write_news;
use node_core::Act;
use std::alloc::Global;
use std::marker::Model;

/// The most text that may wait on a way, in bytes.
const MOST_UNSENT: usize = 1_048_576;

/// How the connection of a way stands.
#[derive(Clone, Copy, Debug, PartialEq, Eq)]
pub enum Wire {
    /// There is none.
    Rests,
    /// It stands.
    Stands,
    /// It is to be closed once the waiting text was sent.
    Ends,
    /// It is to be closed now.
    Breaks,
}

/// A way of a run: how its connection stands, and the text that waits to be sent.
#[derive(Debug, Drop)]
pub struct WayState {
    wire: Wire,
    unsent: Vec<u8>,
}

impl Model for WayState {
    ghost use Rattle.node_run.specs.State.{WayValue};

    ghost Value = { WayValue };

    ghost view = { λ way. record { wire = way.wire; unsent = way.unsent.items } };
}

impl WayState {
    /// No connection, and nothing to send.
    pub fn new(alloc: Global) -> WayState
        ensures { result ≡ at_rest }
    {
        WayState {
            wire: Wire::Rests,
            unsent: Vec::new(alloc),
        }
    }

    pub fn wire(&self) -> Wire
        ensures { result ≡ self.now.wire }
    {
        self.wire
    }

    pub fn set_wire(&mut self, wire: Wire)
        ensures { self.new ≡ record self.old { wire = wire } }
    {
        self.wire = wire;
    }

    /// Whether it is to be closed once the waiting text was sent.
    pub fn has_ended(&self) -> bool
        ensures { result ≡ has_ended self.now.wire }
    {
        match self.wire {
            Wire::Ends => true,
            Wire::Rests | Wire::Stands | Wire::Breaks => false,
        }
    }

    /// What waits to be sent.
    pub fn unsent(&self) -> &[u8]
        ensures { result.now ≡ self.now.unsent }
    {
        self.unsent.as_slice()
    }

    /// Whether nothing waits.
    pub fn is_empty(&self) -> bool
        ensures { result ≡ is_empty self.now.unsent }
    {
        self.unsent.is_empty()
    }

    /// Whether it has to be closed now.
    pub fn is_due(&self) -> bool
        ensures { result ≡ is_due self.now }
    {
        match self.wire {
            Wire::Rests => false,
            Wire::Stands => self.unsent.len() > MOST_UNSENT,
            Wire::Ends => self.unsent.is_empty() || self.unsent.len() > MOST_UNSENT,
            Wire::Breaks => true,
        }
    }

    /// Adds text at the end.
    pub fn append(&mut self, text: &[u8]) -> Result<(), Memory>
        ensures { OnOk result
            (self.new ≡ record self.old { unsent = self.old.unsent ++ text.now }) }
    {
        match self.unsent.extend_from_slice(text) {
            Ok(()) => Ok(()),
            Err(_) => Err(Memory),
        }
    }

    /// Adds a message at the end.
    pub fn append_message(&mut self, message: &Message) -> Result<(), Memory>
        ensures { OnOk result
            (self.new ≡ record self.old { unsent = self.old.unsent ++ canonical message.now }) }
    {
        write_horizontal(message, &mut self.unsent)
    }

    /// Adds a message for the supervisor at the end.
    pub fn append_told(&mut self, message: &VerticalMessage) -> Result<(), Memory>
        ensures { OnOk result
            (self.new
            ≡ record self.old { unsent = self.old.unsent ++ vertical_canonical message.now }) }
    {
        write_vertical(message, &mut self.unsent)
    }

    /// Adds a message of the configuration service at the end.
    pub fn append_config(&mut self, message: &ConfigMessage) -> Result<(), Memory>
        ensures { OnOk result
            (self.new
            ≡ record self.old { unsent = self.old.unsent ++ config_canonical message.now }) }
    {
        write_config(message, &mut self.unsent)
    }

    /// Adds what is news of a step at the end, where the drives are told.
    pub fn append_news(
        &mut self,
        told: bool,
        turn: u64,
        machine: u32,
        acts: &[Act],
    ) -> Result<(), Memory>
        ensures { OnOk result
            (self.new
            ≡ record self.old {
              unsent = self.old.unsent ++ news_lines told turn machine acts.now;
            }) }
    {
        write_news(told, turn, machine, acts, &mut self.unsent)
    }

    /// Takes so many bytes away, which were sent.
    pub fn take_front(&mut self, count: usize)
        ensures { self.new ≡ record self.old { unsent = drop count self.old.unsent } }
    {
        let left = self.unsent.len().saturating_sub(count);
        let start = self.unsent.len() - left;
        self.unsent.copy_within(start.., 0);
        self.unsent.truncate(left);
    }

    /// There is no connection from now on, and nothing to send.
    pub fn rest(&mut self)
        ensures { self.new ≡ at_rest }
    {
        self.wire = Wire::Rests;
        self.unsent.clear();
    }
}
