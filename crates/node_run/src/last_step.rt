//! The last step of the machine.

ghost use Rattle.std.specs.Prelude.{◌≡◌, ◌≤◌, IfOk, OnOk, length};
ghost use Rattle.book_entry.specs.Given.{IsOfOneLane, entry_of, own_of};
ghost use Rattle.book_entry.specs.Short.{IsShort};
ghost use Rattle.node_run.specs.State.{no_step, one_more};
ghost use Rattle.node_run.specs.Booked.{HasForm, differ, spelled_of};

use crate::run::Run;
use board_record::Sensed;
use book_entry::{Entry, own_entry, write_entry};
use line_base::{Memory, Moment};
use node_core::Input;
use std::alloc::Global;
use std::marker::Model;

/// What the machine was given in its last step, if it made one. A flag turns at each step, so it tells
/// whether one more was made.
#[derive(Drop)]
pub struct LastStep {
    entry: Option<Box<Entry>>,
    odd: bool,
}

impl Model for LastStep {
    ghost use Rattle.std.specs.Prelude.{IfSome, option_map};
    ghost use Rattle.book_entry.specs.Spelling.{IsWritable};
    ghost use Rattle.node_run.specs.State.{LastStepValue};

    ghost Value = { LastStepValue };

    ghost view = { λ step. record {
      entry = option_map (λ entry. entry.value) step.entry;
      odd = step.odd;
    } };

    ghost invariant = { λ step. IfSome step.entry (λ entry. IsWritable entry.value) };
}

impl LastStep {
    /// No step was made yet.
    pub fn none() -> LastStep
        ensures { result ≡ no_step }
    {
        LastStep {
            entry: None,
            odd: false,
        }
    }

    /// One step more is to be made.
    pub fn note(
        &mut self,
        alloc: Global,
        sensed: &[Sensed],
        input: &Input<'_>,
        moment: Moment,
    ) -> Result<(), Memory>
        requires events { length sensed.now ≤ 65535 }
        requires short { IsShort (own_of input.now) }
        requires alone { IsOfOneLane input.now }
        ensures { OnOk result
            (self.new ≡ one_more (entry_of sensed.now input.now moment) self.old) }
    {
        let entry = own_entry(alloc, sensed, input, moment)?;
        match Box::new(alloc, entry) {
            Ok(entry) => {
                self.entry = Some(entry);
                self.odd = !self.odd;
                Ok(())
            }
            Err(_) => Err(Memory),
        }
    }

    /// Whether the machine made an odd number of steps.
    pub fn is_odd(&self) -> bool
        ensures { result ≡ self.now.odd }
    {
        self.odd
    }

    /// Whether a step was made since that number was odd, or wasn't.
    pub fn was_made_since(&self, odd: bool) -> bool
        ensures { result ≡ differ odd self.now.odd }
    {
        if odd { !self.odd } else { self.odd }
    }

    /// The bytes of the last step's entry, if there was one.
    pub fn spell(&self, alloc: Global) -> Result<Vec<u8>, Memory>
        ensures spelled { IfOk result (λ bytes. bytes.items ≡ spelled_of self.now.entry) }
        ensures form { HasForm self.now.entry }
    {
        let mut bytes = Vec::new(alloc);
        if let Some(entry) = &self.entry {
            write_entry(alloc, entry, &mut bytes)?;
        }
        Ok(bytes)
    }
}

impl Run {
    /// Whether the machine made an odd number of steps.
    pub fn made_odd_steps(&self) -> bool
        ensures { result ≡ self.now.state.step.odd }
    {
        self.step.is_odd()
    }

    /// Whether it made one more since that number was odd, or wasn't.
    pub fn made_step_since(&self, odd: bool) -> bool
        ensures { result ≡ differ odd self.now.state.step.odd }
    {
        self.step.was_made_since(odd)
    }

    /// The bytes of the last step's entry, if there was one.
    pub fn spell_step(&self) -> Result<Vec<u8>, Memory>
        ensures spelled { IfOk result
            (λ bytes. bytes.items ≡ spelled_of self.now.state.step.entry) }
        ensures form { HasForm self.now.state.step.entry }
    {
        self.step.spell(self.alloc)
    }
}
