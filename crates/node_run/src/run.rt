ghost use Rattle.std.specs.Prelude.{◌≡◌, [], IfOk, OnOk};
ghost use Rattle.supervised_end.specs.Channel.{IsShort, no_session};
ghost use Rattle.node_run.specs.Held.{HasFewLooks};
ghost use Rattle.node_run.specs.State.{RunView, echoed, started, way_at, with_wire, refusal_text};
ghost use Rattle.node_run.specs.Next.{IsTurnLeft, moved_on};
ghost use Rattle.node_run.specs.After.{after_send};
ghost use Rattle.line_outside.specs.declared.ports.Sent.TheVariants as sents;

use crate::held::Held;
use crate::last_step::LastStep;
use crate::place::Place;
use crate::rules::Rules;
use crate::status::NodeStatus;
use crate::way_state::{WayState, Wire};
use config_service::{Config, Resets, Settings};
use line_base::Memory;
use line_outside::Way;
use machine_log::Drives;
use node_core::Node;
use std::alloc::Global;
use std::marker::Model;
use supervised_end::Channel;

/// What cuts the bytes of the supervisor's way and of the configuration service's.
pub(crate) fn channels(alloc: Global) -> Result<(Channel, Channel), Memory>
    ensures { IfOk result (λ both. (both.0 ≡ no_session) × (both.1 ≡ no_session)) }
{
    let channel = Channel::new(alloc)?;
    let config = Channel::new(alloc)?;
    Ok((channel, config))
}

/// A text for a second connection, which is to be refused.
#[derive(Drop)]
pub struct Refusal {
    pub way: Way,
    pub text: Vec<u8>,
}

/// A run of a machine: where it is, and what the present move has told.
#[derive(Drop)]
pub struct Run {
    pub(crate) alloc: Global,
    pub(crate) rules: Rules,
    pub(crate) node: Node,
    pub(crate) panel: WayState,
    pub(crate) upstream: WayState,
    pub(crate) downstream: WayState,
    pub(crate) supervisory: WayState,
    pub(crate) configuration: WayState,
    pub(crate) channel: Channel,
    pub(crate) config: Channel,
    pub(crate) settings: Config,
    pub(crate) tries: Option<Settings>,
    pub(crate) resets: Resets,
    pub(crate) drives: Drives,
    pub(crate) step: LastStep,
    pub(crate) line: Vec<u8>,
    pub(crate) drops: bool,
    pub(crate) rest: Vec<u8>,
    pub(crate) held: Held,
    pub(crate) done: usize,
    pub(crate) refusal: Option<Refusal>,
    pub(crate) asks: bool,
    pub(crate) place: Place,
    pub(crate) turn: u64,
    pub(crate) ended: Option<NodeStatus>,
    pub(crate) told: Vec<u8>,
}

impl Model for Run {
    ghost use Rattle.std.specs.Prelude.{◌≤◌, drop, option_map, vec_len};
    ghost use Rattle.node_run.specs.State.{RunView, seen_refusal};

    ghost Value = { RunView };

    ghost view = { λ r. record {
      rules = r.rules;
      state = record {
        node = r.node;
        panel = r.panel;
        upstream = r.upstream;
        downstream = r.downstream;
        supervisory = r.supervisory;
        configuration = r.configuration;
        channel = r.channel;
        config = r.config;
        settings = r.settings;
        tries = r.tries;
        resets = r.resets;
        drives = r.drives;
        step = r.step;
        line =
            r.line.items;
        drops = r.drops;
        rest = drop r.done r.rest.items;
        held = r.held;
        refusal =
            option_map (λ refusal. seen_refusal refusal.way refusal.text.items) r.refusal;
        asks =
            r.asks;
        place = r.place;
        turn = r.turn;
        ended = r.ended;
      };
      told = r.told.items;
    } };

    ghost invariant = { λ r. r.done ≤ vec_len r.rest };
}

impl Run {
    /// A run that is before its first turn, with a channel for the supervisor and one for the
    /// configuration service, on which nothing came yet.
    pub fn new(
        alloc: Global,
        rules: Rules,
        settings: Settings,
        node: Node,
        channel: Channel,
        config: Channel,
    ) -> Run
        requires channel { channel ≡ no_session }
        requires config { config ≡ no_session }
        ensures { result ≡ record { rules = rules; state = started settings node; told = [] } }
    {
        Run {
            alloc,
            rules,
            node,
            panel: WayState::new(alloc),
            upstream: WayState::new(alloc),
            downstream: WayState::new(alloc),
            supervisory: WayState::new(alloc),
            configuration: WayState::new(alloc),
            channel,
            config,
            settings: Config::new(settings),
            tries: None,
            resets: Resets {
                upstream: false,
                downstream: false,
            },
            drives: Drives::off(),
            step: LastStep::none(),
            line: Vec::new(alloc),
            drops: false,
            rest: Vec::new(alloc),
            held: Held::nothing(),
            done: 0,
            refusal: None,
            asks: false,
            place: Place::ListenPanel,
            turn: 1,
            ended: None,
            told: Vec::new(alloc),
        }
    }

    /// It is the run of a machine that begins again, with these drives.
    pub(crate) fn resume(&mut self, drives: Drives)
        ensures { self.new
            ≡ record self.old { state = record self.old.state { drives = drives; turn = 0 } } }
    {
        self.drives = drives;
        self.turn = 0;
    }

    /// The lines of the present move in the log.
    pub fn told(&self) -> &[u8]
        ensures { result.now ≡ self.now.told }
    {
        self.told.as_slice()
    }

    /// Begins another move, that has told nothing yet.
    pub fn begin_move(&mut self)
        ensures { self.new ≡ record self.old { told = [] } }
    {
        self.told.clear();
    }

    /// Goes on to the next place.
    pub fn move_on(&mut self)
        requires { IsTurnLeft self.old.state.place self.old.state.turn self.old.rules.turns }
        ensures { self.new ≡ record self.old { state = moved_on self.old.state } }
    {
        self.turn = self.place.turn_behind(self.turn, self.rules.turns);
        self.place = self.place.behind();
    }

    /// What waits to be sent on a way.
    pub fn unsent(&self, way: Way) -> &[u8]
        ensures { result.now ≡ (way_at way self.now.state).unsent }
    {
        match way {
            Way::Panel => self.panel.unsent(),
            Way::Upstream => self.upstream.unsent(),
            Way::Downstream => self.downstream.unsent(),
            Way::Supervisory => self.supervisory.unsent(),
            Way::Configuration => self.configuration.unsent(),
        }
    }

    /// Sets how the connection of a way stands.
    pub(crate) fn set_wire(&mut self, way: Way, wire: Wire)
        ensures { self.new ≡ record self.old { state = with_wire way wire self.old.state } }
    {
        match way {
            Way::Panel => self.panel.set_wire(wire),
            Way::Upstream => self.upstream.set_wire(wire),
            Way::Downstream => self.downstream.set_wire(wire),
            Way::Supervisory => self.supervisory.set_wire(wire),
            Way::Configuration => self.configuration.set_wire(wire),
        }
    }

    /// So many bytes that waited on a way were sent.
    pub(crate) fn take_sent(&mut self, way: Way, count: usize)
        ensures { self.new
            ≡ record self.old { state = after_send way (sents.Took count) self.old.state } }
    {
        match way {
            Way::Panel => self.panel.take_front(count),
            Way::Upstream => self.upstream.take_front(count),
            Way::Downstream => self.downstream.take_front(count),
            Way::Supervisory => self.supervisory.take_front(count),
            Way::Configuration => self.configuration.take_front(count),
        }
    }

    /// The text for the second connection that is to be refused.
    pub fn refusal_text(&self) -> &[u8]
        ensures { result.now ≡ refusal_text self.now.state.refusal }
    {
        match &self.refusal {
            Some(refusal) => refusal.text.as_slice(),
            None => &[],
        }
    }

    /// No more bytes wait to be heard than a message and an answer have, and the panel isn't polled
    /// without end.
    pub(crate) fn is_short(&self)
        ensures channel { IsShort self.now.state.channel }
        ensures config { IsShort self.now.state.config }
        ensures held { HasFewLooks self.now.state.held }
    {
        self.channel.is_short();
        self.config.is_short();
        self.held.has_few_looks();
    }

    /// What of the panel's text isn't done yet.
    pub(crate) fn rest(&self) -> &[u8]
        ensures { result.now ≡ self.now.state.rest }
    {
        &self.rest[self.done..]
    }

    /// Adds lines to the log, and the same to the panel's text.
    pub(crate) fn echo(&mut self) -> Result<(), Memory>
        ensures rules { self.new.rules ≡ self.old.rules }
        ensures echoed { OnOk result
            (self.new ≡ record self.old { state = echoed self.old.told self.old.state }) }
    {
        self.panel.append(self.told.as_slice())
    }
}
