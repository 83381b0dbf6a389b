ghost use Rattle.std.specs.Prelude.{◌≡◌, false};

use line_base::{Moment, Text};
use smema_bridge::Bridge;
use std::alloc::Global;
use std::marker::Model;

/// What a machine knows of itself in a step: its id text, the number of its lane, its capacity,
/// the moment, of a bridge the levels of its signals, whether it is supervised, and how many
/// questions it has asked its supervisor.
#[derive(Drop)]
pub struct Desk {
    alloc: Global,
    name: Text,
    lane: u32,
    capacity: u32,
    moment: Moment,
    bridge: Option<Bridge>,
    supervised: bool,
    asked: u64,
}

impl Model for Desk {
    ghost use Rattle.node_core.specs.Desk.{Desk};

    ghost Value = { Desk };

    ghost view = { λ desk.
        record {
          name = desk.name;
          lane = desk.lane;
          capacity = desk.capacity;
          moment = desk.moment;
          bridge = desk.bridge;
          supervised = desk.supervised;
          asked =
              desk.asked;
        } };
}

impl Desk {
    pub(crate) fn new(
        alloc: Global,
        name: Text,
        lane: u32,
        capacity: u32,
        moment: Moment,
        bridge: Option<Bridge>,
    ) -> Desk
        ensures { result
            ≡ record {
              name = name;
              lane = lane;
              capacity = capacity;
              moment = moment;
              bridge = bridge;
              supervised = false;
              asked = 0;
            } }
    {
        Desk {
            alloc,
            name,
            lane,
            capacity,
            moment,
            bridge,
            supervised: false,
            asked: 0,
        }
    }

    pub(crate) fn alloc(&self) -> Global {
        self.alloc
    }

    pub(crate) fn name(&self) -> &Text
        ensures { result.now ≡ self.now.name }
    {
        &self.name
    }

    pub(crate) fn lane(&self) -> u32
        ensures { result ≡ self.now.lane }
    {
        self.lane
    }

    pub(crate) fn capacity(&self) -> u32
        ensures { result ≡ self.now.capacity }
    {
        self.capacity
    }

    pub(crate) fn moment(&self) -> Moment
        ensures { result ≡ self.now.moment }
    {
        self.moment
    }

    pub(crate) fn set_moment(&mut self, moment: Moment)
        ensures { self.new ≡ record self.old { moment = moment } }
    {
        self.moment = moment;
    }

    /// The levels of a bridge's signals.
    pub(crate) fn bridge(&self) -> Option<Bridge>
        ensures { result ≡ self.now.bridge }
    {
        self.bridge
    }

    pub(crate) fn set_bridge(&mut self, bridge: Option<Bridge>)
        ensures { self.new ≡ record self.old { bridge = bridge } }
    {
        self.bridge = bridge;
    }

    /// Whether the machine is supervised.
    pub(crate) fn supervised(&self) -> bool
        ensures { result ≡ self.now.supervised }
    {
        self.supervised
    }

    pub(crate) fn set_supervised(&mut self, supervised: bool)
        ensures { self.new ≡ record self.old { supervised = supervised } }
    {
        self.supervised = supervised;
    }

    /// How many questions the machine has asked its supervisor.
    pub(crate) fn asked(&self) -> u64
        ensures { result ≡ self.now.asked }
    {
        self.asked
    }

    pub(crate) fn set_asked(&mut self, asked: u64)
        ensures { self.new ≡ record self.old { asked = asked } }
    {
        self.asked = asked;
    }
}
