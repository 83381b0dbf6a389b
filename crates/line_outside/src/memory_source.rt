ghost use Rattle.std.specs.Prelude.{◌≡◌, ◌+◌, ◌-◌, ◌^◌, ◌<◌, ℕ, List, Some, IfOk, length, min};
ghost use Rattle.line_outside.specs.Source.{Gives, HasPullCause};
ghost use Rattle.line_outside.specs.Tape.{Tape, faults_after, pulls_at};

use crate::source::{Pull, Source};
use crate::steady_source::SteadySource;
use line_base::Memory;
use std::alloc::Global;
use std::marker::Model;

/// A source of bytes in memory, of which the listed calls fail and no others. Its faults are the
/// calls that failed.
#[derive(Debug, Drop)]
pub struct MemorySource {
    source: SteadySource,
    failing: Vec<u64>,
    calls: u64,
    faults: u64,
}

impl Model for MemorySource {
    ghost Value = { Tape };

    ghost view = { λ source.
        record {
          left = source.source;
          failing = source.failing.items;
          calls = source.calls;
          faults = source.faults;
        } };
}

impl MemorySource {
    /// A source of these bytes. `failing` lists the numbers of the calls that fail, from 1.
    pub fn new(alloc: Global, bytes: &[u8], failing: &[u64]) -> Result<MemorySource, Memory>
        ensures { IfOk result
            (λ source.
            source ≡ record { left = bytes.now; failing = failing.now; calls = 0; faults = 0 }) }
    {
        let source = SteadySource::new(alloc, bytes)?;
        match Vec::from_slice(alloc, failing) {
            Ok(failing) => Ok(MemorySource {
                source,
                failing,
                calls: 0,
                faults: 0,
            }),
            Err(_) => Err(Memory),
        }
    }
}

impl Source for MemorySource {
    ghost left = { λ source. Some source.left };

    ghost faults = { λ source. source.faults };

    fn pull(&mut self, room: &mut [u8]) -> Pull
        requires { 0 < length room.old }
        ensures gives { Gives (Some self.old.left) (Some self.new.left) result room.new }
        ensures cause { HasPullCause self.old.faults self.new.faults result }
        // the listed calls fail, and no others
        ensures answer { result ≡ pulls_at self.old (length room.old) }
        // each failed call is counted, and no other
        ensures faults { self.new.faults ≡ faults_after self.old.faults result }
        ensures counted { self.new.calls ≡ min (self.old.calls + 1) (2 ^ 64 - 1) }
        ensures failing { self.new.failing ≡ self.old.failing }
    {
        self.calls = self.calls.saturating_add(1);
        if self.failing.contains(&self.calls) {
            self.faults = self.faults.saturating_add(1);
            return Pull::Failed;
        }
        self.source.pull(room)
    }
}
