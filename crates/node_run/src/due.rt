//! What comes next.

ghost use Rattle.std.specs.Prelude.{◌≡◌, if◌then◌else◌};
ghost use Rattle.line_outside.specs.declared.way.Way.TheVariants as ways;
ghost use Rattle.node_run.specs.Next.{next_of, is_due, closes_next, configures_next, connects_next, lines_next, hears_next, held_next, resets_next, tries_next, takes_next, at_place, listens_if, panel_address, polls, is_polled, sends_by, turn_next};
ghost use Rattle.node_run.specs.declared.place.Next.TheVariants as nexts;

use crate::place::{Next, Place};
use crate::run::Run;
use crate::status::NodeStatus;
use crate::way_state::WayState;
use line_base::Side;
use line_outside::{Address, Way};

impl Run {
    /// What comes next: the end, a second connection that is to be refused, a side that is reset, a
    /// way that has to be closed, the port of a Set, a connection that was asked for, the next of the
    /// panel's lines, of the supervisor's messages and of the configuration service's, what was found
    /// of a neighbour, and then what is done at this place.
    pub fn next(&self) -> Next
        ensures { result ≡ next_of self.now.rules self.now.state }
    {
        if let Some(status) = self.ended {
            return Next::End(status);
        }
        if let Some(refusal) = &self.refusal {
            return Next::Refuse(refusal.way);
        }
        self.next_reset()
    }

    fn next_reset(&self) -> Next
        ensures { result
            ≡ resets_next self.now.state.resets (closes_next self.now.rules self.now.state) }
    {
        if self.resets.upstream {
            return Next::Reset(Side::Entry);
        }
        if self.resets.downstream {
            return Next::Reset(Side::Exit);
        }
        self.next_close()
    }

    fn next_close(&self) -> Next
        ensures { result ≡ closes_next self.now.rules self.now.state }
    {
        if self.panel.is_due() {
            return Next::Close(Way::Panel);
        }
        if self.upstream.is_due() {
            return Next::Close(Way::Upstream);
        }
        if self.downstream.is_due() {
            return Next::Close(Way::Downstream);
        }
        self.next_close_served()
    }

    /// Behind the ways of the panel and of the neighbours, those of who is served message by message.
    fn next_close_served(&self) -> Next
        ensures { result
            ≡ if is_due self.now.state.supervisory then nexts.Close ways.Supervisory else
            (if is_due self.now.state.configuration then nexts.Close ways.Configuration else
            tries_next self.now.state.tries (connects_next self.now.rules self.now.state)) }
    {
        if self.supervisory.is_due() {
            return Next::Close(Way::Supervisory);
        }
        if self.configuration.is_due() {
            return Next::Close(Way::Configuration);
        }
        self.next_try()
    }

    fn next_try(&self) -> Next
        ensures { result
            ≡ tries_next self.now.state.tries (connects_next self.now.rules self.now.state) }
    {
        if let Some(settings) = self.tries {
            return Next::Try(settings);
        }
        self.next_connect()
    }

    fn next_connect(&self) -> Next
        ensures { result ≡ connects_next self.now.rules self.now.state }
    {
        if self.asks
            && let Some(address) = self.settings.settings().upstream
        {
            return Next::Connect(address);
        }
        self.next_line()
    }

    fn next_line(&self) -> Next
        ensures { result ≡ lines_next self.now.rules self.now.state }
    {
        if !self.rest().is_empty() {
            return Next::Line;
        }
        self.next_hear()
    }

    fn next_hear(&self) -> Next
        ensures { result ≡ hears_next self.now.rules self.now.state }
    {
        if self.channel.hears() {
            return Next::Hear;
        }
        self.next_configure()
    }

    fn next_configure(&self) -> Next
        ensures { result ≡ configures_next self.now.rules self.now.state }
    {
        if self.config.hears() {
            return Next::HearConfig;
        }
        self.next_held()
    }

    /// What was found of a neighbour is taken behind the panel's lines.
    fn next_held(&self) -> Next
        ensures { result ≡ held_next self.now.rules self.now.state }
    {
        if self.held.is_some() {
            return self.next_take();
        }
        self.next_at_place()
    }

    fn next_take(&self) -> Next
        ensures { result ≡ takes_next self.now.state.held.looks }
    {
        if self.held.looks() {
            return Next::Look;
        }
        Next::Take
    }

    fn next_at_place(&self) -> Next
        ensures { result ≡ at_place self.now.rules self.now.state self.now.state.place }
    {
        match self.place {
            Place::ListenPanel => Next::Listen(Way::Panel, self.panel_address()),
            Place::ListenDownstream => Next::Listen(
                Way::Downstream,
                Address::at_all(self.settings.settings().port),
            ),
            Place::ListenSupervisory => {
                next_listen(Way::Supervisory, self.rules.connections.supervisory_port)
            }
            Place::ListenConfiguration => {
                next_listen(Way::Configuration, self.rules.connections.config_port)
            }
            Place::PollPanel => self.next_poll(Way::Panel),
            Place::PollUpstream => self.next_poll(Way::Upstream),
            Place::PollDownstream => self.next_poll(Way::Downstream),
            Place::PollSupervisory => self.next_poll(Way::Supervisory),
            Place::PollConfiguration => self.next_poll(Way::Configuration),
            Place::SendPanel => next_send(Way::Panel, &self.panel),
            Place::SendUpstream => next_send(Way::Upstream, &self.upstream),
            Place::SendDownstream => next_send(Way::Downstream, &self.downstream),
            Place::SendSupervisory => next_send(Way::Supervisory, &self.supervisory),
            Place::SendConfiguration => next_send(Way::Configuration, &self.configuration),
            Place::TurnDone => self.next_turn(),
        }
    }

    /// A panel connects from the same computer, unless it may from anywhere.
    fn panel_address(&self) -> Address
        ensures { result
            ≡ panel_address self.now.rules.panel.anywhere self.now.rules.connections.panel_port }
    {
        if self.rules.panel.anywhere {
            return Address::at_all(self.rules.connections.panel_port);
        }
        Address::at_loopback(self.rules.connections.panel_port)
    }

    /// A way that is to end isn't polled, nor is one that isn't set.
    fn next_poll(&self, way: Way) -> Next
        ensures { result ≡ polls self.now.rules self.now.state way }
    {
        if self.is_polled(way) {
            return Next::Poll(way);
        }
        Next::Skip
    }

    fn is_polled(&self, way: Way) -> bool
        ensures { result ≡ is_polled self.now.rules self.now.state way }
    {
        match way {
            Way::Panel => true,
            Way::Upstream => {
                self.settings.settings().upstream.is_some() && !self.upstream.has_ended()
            }
            Way::Downstream => !self.downstream.has_ended(),
            Way::Supervisory => {
                self.rules.connections.supervisory_port.is_some() && !self.supervisory.has_ended()
            }
            Way::Configuration => {
                self.rules.connections.config_port.is_some() && !self.configuration.has_ended()
            }
        }
    }

    fn next_turn(&self) -> Next
        ensures { result ≡ turn_next self.now.rules self.now.state }
    {
        if self.turn < self.rules.turns {
            return Next::Skip;
        }
        Next::End(NodeStatus::TurnsUsed)
    }
}

/// A port is listened at where it is set.
fn next_listen(way: Way, port: Option<u16>) -> Next
    ensures { result ≡ listens_if way port }
{
    match port {
        Some(port) => Next::Listen(way, Address::at_all(port)),
        None => Next::Skip,
    }
}

fn next_send(way: Way, state: &WayState) -> Next
    ensures { result ≡ sends_by way state.now }
{
    if state.is_empty() {
        return Next::Skip;
    }
    Next::Send(way)
}
