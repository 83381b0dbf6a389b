ghost use Rattle.std.specs.Prelude.{◌≡◌, ◌+◌, ◌-◌, ◌^◌, ◌<◌, ℕ, [], List, Some, IfOk, length, min, option_map};
ghost use Rattle.line_outside.specs.Sink.{Takes, HasPushCause};
ghost use Rattle.line_outside.specs.Sheet.{Sheet, faults_after, pushes_at, page_after};

use crate::sink::{Push, Sink};
use crate::steady_sink::SteadySink;
use line_base::Memory;
use std::alloc::Global;
use std::marker::Model;

/// A sink in memory, of which the listed calls fail and no others. Else it is as a `SteadySink`.
/// Its faults are the calls that failed.
#[derive(Debug, Drop)]
pub struct MemorySink {
    sink: SteadySink,
    failing: Vec<u64>,
    calls: u64,
    faults: u64,
}

impl Model for MemorySink {
    ghost Value = { Sheet };

    ghost view = { λ sink.
        record {
          page = sink.sink;
          failing = sink.failing.items;
          calls = sink.calls;
          faults = sink.faults;
        } };
}

impl MemorySink {
    /// An empty sink with room for so many bytes. `failing` lists the numbers of the calls that
    /// fail, from 1.
    pub fn new(alloc: Global, room: usize, failing: &[u64]) -> Result<MemorySink, Memory>
        ensures { IfOk result
            (λ sink. sink
            ≡ record {
              page = record { contents = Some []; room = room };
              failing = failing.now;
              calls = 0;
              faults = 0;
            }) }
    {
        let sink = SteadySink::new(alloc, room)?;
        match Vec::from_slice(alloc, failing) {
            Ok(failing) => Ok(MemorySink {
                sink,
                failing,
                calls: 0,
                faults: 0,
            }),
            Err(_) => Err(Memory),
        }
    }

    /// What it has taken, where it still tells it.
    pub fn contents(&self) -> Option<&[u8]>
        ensures { option_map (λ bytes. bytes.now) result ≡ self.now.page.contents }
    {
        self.sink.contents()
    }
}

impl Sink for MemorySink {
    ghost contents = { λ sink. sink.page.contents };

    ghost faults = { λ sink. sink.faults };

    fn push(&mut self, piece: &[u8]) -> Push
        requires { 0 < length piece.now }
        ensures takes { Takes self.old.page.contents self.new.page.contents result piece.now }
        ensures cause { HasPushCause self.old.faults self.new.faults result }
        // the listed calls fail, and no others
        ensures answer { result ≡ pushes_at self.old piece.now }
        ensures page { self.new.page ≡ page_after self.old piece.now }
        // each failed call is counted, and no other
        ensures faults { self.new.faults ≡ faults_after self.old.faults result }
        ensures counted { self.new.calls ≡ min (self.old.calls + 1) (2 ^ 64 - 1) }
        ensures failing { self.new.failing ≡ self.old.failing }
    {
        self.calls = self.calls.saturating_add(1);
        if self.failing.contains(&self.calls) {
            self.faults = self.faults.saturating_add(1);
            return Push::Failed;
        }
        self.sink.push(piece)
    }
}
