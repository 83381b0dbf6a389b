ghost use Rattle.std.specs.Prelude.{◌≡◌, OnOk, OnErr, length, take};
ghost use Rattle.line_link.specs.Flow.{both_dry, coming, dry, flowing, stream_to, with_arrival, with_nul, with_stream_to, with_text};
ghost use Rattle.line_link.specs.Link.{AreBegun};

use crate::flow::Flow;
use line_base::{Memory, Role};
use std::alloc::Global;
use std::marker::Model;

/// What flows to each end of a link.
#[derive(Debug, Drop)]
pub struct Flows {
    to_upstream: Flow,
    to_downstream: Flow,
}

impl Model for Flows {
    ghost use Rattle.line_link.specs.Flow.{Streams};

    ghost Value = { Streams };

    ghost view = { λ flows.
        record { to_upstream = flows.to_upstream; to_downstream = flows.to_downstream } };
}

impl Flows {
    /// Nothing flows.
    pub fn new(alloc: Global) -> Flows
        ensures { result ≡ both_dry }
    {
        Flows {
            to_upstream: Flow::new(alloc),
            to_downstream: Flow::new(alloc),
        }
    }

    /// Of the oldest text in each direction not all has arrived.
    pub fn together(&self)
        ensures { AreBegun self.now }
    {
        self.to_upstream.together();
        self.to_downstream.together();
    }

    /// How many bytes are on their way to an end.
    pub fn coming(&self, to: Role) -> usize
        ensures { result ≡ length (coming (stream_to to self.now)) }
    {
        match to {
            Role::Upstream => self.to_upstream.coming(),
            Role::Downstream => self.to_downstream.coming(),
        }
    }

    /// The bytes that arrive at an end next.
    pub fn next(&self, to: Role, count: Option<u32>) -> &[u8]
        ensures { result.now ≡ take (flowing count (stream_to to self.now))
            (coming (stream_to to self.now)) }
    {
        let flow = match to {
            Role::Upstream => &self.to_upstream,
            Role::Downstream => &self.to_downstream,
        };
        flow.next(flow.flowing(count))
    }

    /// Bytes arrive at an end.
    pub fn arrive(&mut self, to: Role, count: Option<u32>)
        ensures { self.new
            ≡ with_stream_to to
            (with_arrival (flowing count (stream_to to self.old)) (stream_to to self.old)) self.old }
    {
        match to {
            Role::Upstream => {
                let count = self.to_upstream.flowing(count);
                self.to_upstream.arrive(count);
            }
            Role::Downstream => {
                let count = self.to_downstream.flowing(count);
                self.to_downstream.arrive(count);
            }
        }
    }

    /// A text is on its way to an end. `Memory` where there is no room; all is then as it was.
    pub fn push(&mut self, to: Role, text: &[u8]) -> Result<(), Memory>
        ensures ok { OnOk result
            (self.new ≡ with_stream_to to (with_text text.now (stream_to to self.old)) self.old) }
        ensures memory { OnErr result (self.new ≡ self.old) }
    {
        match to {
            Role::Upstream => self.to_upstream.push(text),
            Role::Downstream => self.to_downstream.push(text),
        }
    }

    /// A NUL byte is put before the next byte to arrive at an end. `Memory` where there is no
    /// room; all is then as it was.
    pub fn put_nul(&mut self, to: Role) -> Result<(), Memory>
        ensures ok { OnOk result
            (self.new ≡ with_stream_to to (with_nul (stream_to to self.old)) self.old) }
        ensures memory { OnErr result (self.new ≡ self.old) }
    {
        match to {
            Role::Upstream => self.to_upstream.put_nul(),
            Role::Downstream => self.to_downstream.put_nul(),
        }
    }

    /// Nothing flows to an end any more.
    pub fn clear_to(&mut self, to: Role)
        ensures { self.new ≡ with_stream_to to dry self.old }
    {
        match to {
            Role::Upstream => self.to_upstream.clear(),
            Role::Downstream => self.to_downstream.clear(),
        }
    }

    /// Nothing flows any more.
    pub fn clear(&mut self)
        ensures { self.new ≡ both_dry }
    {
        self.to_upstream.clear();
        self.to_downstream.clear();
    }
}
