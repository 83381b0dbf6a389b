//! What the answers of the ports do.

ghost use Rattle.std.specs.Prelude.{◌≡◌, ◌≤◌, ◌++◌, [], false, None, IfSome, OnOk, length, option_map, vec_len};
ghost use Rattle.line_outside.specs.declared.answer.GotBytes.TheVariants as founds;
ghost use Rattle.node_run.specs.declared.way_state.Wire.TheVariants as wires;
ghost use Rattle.node_run.specs.Next.{IsTurnLeft, moved_on};
ghost use Rattle.node_core.specs.Sides.{is_open};
ghost use Rattle.node_run.specs.Held.{nothing_held, seen_finding};
ghost use Rattle.node_run.specs.After.{after_configuration, after_listen, after_send, after_supervisory, broken, configuration_gone, configuration_second, greeting, found_of, looked, panel_gone, supervisory_second, way_of, with_held, AfterPanel, AfterPoll, AfterLook, AfterUpstream, AfterDownstream, AfterClose, HearsBytes, TakesFound, TakesHeld};

use crate::configuring::refusal_of_second as refusal_of_second_client;
use crate::held::Finding;
use crate::run::{Refusal, Run};
use crate::status::NodeStatus;
use crate::way_state::Wire;
use line_base::{Memory, Moment, Side};
use line_outside::{Address, Got, Opened, Sent, Way};
use machine_log::write_drives;
use node_core::Input;
use supervised_end::refusal_of_second;

impl Run {
    /// Nothing was to do at this place.
    pub fn skip(&mut self)
        requires { IsTurnLeft self.old.state.place self.old.state.turn self.old.rules.turns }
        ensures { self.new ≡ record self.old { state = moved_on self.old.state } }
    {
        self.move_on();
    }

    /// The answer to listening at an address.
    pub fn after_listen(&mut self, address: Address, opened: Opened)
        requires { IsTurnLeft self.old.state.place self.old.state.turn self.old.rules.turns }
        ensures { self.new ≡ record self.old { state = after_listen address opened self.old.state } }
    {
        self.move_on();
        if opened == Opened::Failed {
            self.ended = Some(NodeStatus::ListenFault(address));
        }
    }

    /// A connection was asked for. Whether it comes, a poll says.
    pub fn after_connect(&mut self)
        ensures { self.new ≡ record self.old { state = record self.old.state { asks = false } } }
    {
        self.asks = false;
    }

    /// A second connection was refused. The answer changes nothing.
    pub fn after_refuse(&mut self)
        ensures { self.new ≡ record self.old { state = record self.old.state { refusal = None } } }
    {
        self.refusal = None;
    }

    /// The answer to a poll, with the bytes that it gave.
    pub fn after_poll(
        &mut self,
        way: Way,
        got: Got,
        bytes: &[u8],
        moment: Moment,
    ) -> Result<(), Memory>
        requires turn { IsTurnLeft self.old.state.place self.old.state.turn self.old.rules.turns }
        requires told { self.old.told ≡ [] }
        requires few { length bytes.now ≤ 4096 }
        ensures rules { self.new.rules ≡ self.old.rules }
        ensures after { OnOk result
            (AfterPoll self.old.rules moment way (found_of got bytes.now)
            (moved_on self.old.state) self.new.state self.new.told) }
    {
        self.move_on();
        match way {
            Way::Panel => self.after_panel(got, bytes),
            Way::Upstream => self.after_upstream(got, bytes, moment),
            Way::Downstream => self.after_downstream(got, bytes, moment),
            Way::Supervisory => self.after_supervisory(got, bytes, moment),
            Way::Configuration => self.after_configuration(got, bytes, moment),
        }
    }

    fn after_panel(&mut self, got: Got, bytes: &[u8]) -> Result<(), Memory>
        requires { self.old.told ≡ [] }
        ensures rules { self.new.rules ≡ self.old.rules }
        ensures after { OnOk result
            (AfterPanel self.old.rules
            (found_of got bytes.now) self.old.state self.new.state self.new.told) }
    {
        let wire = self.panel.wire();
        match got {
            Got::Arrived if wire == Wire::Rests => return self.greet_panel(),
            Got::Second if wire == Wire::Stands => {
                self.refusal = Some(Refusal {
                    way: Way::Panel,
                    text: Vec::new(self.alloc),
                });
            }
            Got::Bytes(_) if wire == Wire::Stands => return self.set_rest(bytes),
            Got::Closed | Got::Failed if wire == Wire::Stands => {
                self.panel.set_wire(Wire::Breaks);
            }
            _ => {}
        }
        Ok(())
    }

    /// A panel connected: it is told what each drive is, where the drives are told.
    fn greet_panel(&mut self) -> Result<(), Memory>
        requires wire { self.old.state.panel.wire ≡ wires.Rests }
        requires told { self.old.told ≡ [] }
        ensures rules { self.new.rules ≡ self.old.rules }
        ensures after { OnOk result
            (AfterPanel self.old.rules founds.Arrived self.old.state self.new.state self.new.told) }
    {
        self.set_wire(Way::Panel, Wire::Stands);
        self.write_greeting()?;
        self.echo()
    }

    fn write_greeting(&mut self) -> Result<(), Memory>
        ensures rules { self.new.rules ≡ self.old.rules }
        ensures told { OnOk result
            (self.new
            ≡ record self.old {
              told = self.old.told ++ greeting self.old.rules self.old.state;
            }) }
    {
        let told = self.rules.panel.drives;
        write_drives(
            told,
            self.turn,
            self.rules.number,
            self.drives,
            &mut self.told,
        )
    }

    fn set_rest(&mut self, bytes: &[u8]) -> Result<(), Memory>
        ensures rules { self.new.rules ≡ self.old.rules }
        ensures rest { OnOk result
            (self.new ≡ record self.old { state = record self.old.state { rest = bytes.now } }) }
    {
        self.rest.clear();
        self.done = 0;
        match self.rest.extend_from_slice(bytes) {
            Ok(()) => Ok(()),
            Err(_) => Err(Memory),
        }
    }

    /// A session begins with a connection, a second one is refused, and bytes are heard message by
    /// message.
    fn after_supervisory(&mut self, got: Got, bytes: &[u8], moment: Moment) -> Result<(), Memory>
        requires few { length bytes.now ≤ 4096 }
        ensures rules { self.new.rules ≡ self.old.rules }
        ensures after { OnOk result
            (self.new
            ≡ record self.old
            { state = after_supervisory moment (found_of got bytes.now) self.old.state }) }
    {
        let wire = self.supervisory.wire();
        match got {
            Got::Arrived if wire == Wire::Rests => {
                self.supervisory.set_wire(Wire::Stands);
                self.channel.restart();
            }
            Got::Second if wire == Wire::Stands => return self.refuse_supervisor(moment),
            Got::Bytes(_) if wire == Wire::Stands => return self.channel.hear(bytes),
            Got::Closed | Got::Failed if wire == Wire::Stands => {
                self.supervisory.set_wire(Wire::Breaks);
            }
            _ => {}
        }
        Ok(())
    }

    fn refuse_supervisor(&mut self, moment: Moment) -> Result<(), Memory>
        ensures rules { self.new.rules ≡ self.old.rules }
        ensures refuses { OnOk result
            (self.new
            ≡ record self.old { state = supervisory_second Wire.Stands moment self.old.state }) }
    {
        let text = refusal_of_second(self.alloc, moment)?;
        self.refusal = Some(Refusal {
            way: Way::Supervisory,
            text,
        });
        Ok(())
    }

    /// A client of the configuration service comes, a second one is refused, and bytes are heard
    /// message by message.
    fn after_configuration(&mut self, got: Got, bytes: &[u8], moment: Moment) -> Result<(), Memory>
        requires few { length bytes.now ≤ 4096 }
        ensures rules { self.new.rules ≡ self.old.rules }
        ensures after { OnOk result
            (self.new
            ≡ record self.old
            { state = after_configuration moment (found_of got bytes.now) self.old.state }) }
    {
        let wire = self.configuration.wire();
        match got {
            Got::Arrived if wire == Wire::Rests => {
                self.configuration.set_wire(Wire::Stands);
                self.config.restart();
            }
            Got::Second if wire == Wire::Stands => return self.refuse_client(moment),
            Got::Bytes(_) if wire == Wire::Stands => return self.config.hear(bytes),
            Got::Closed | Got::Failed if wire == Wire::Stands => {
                self.configuration.set_wire(Wire::Breaks);
            }
            _ => {}
        }
        Ok(())
    }

    fn refuse_client(&mut self, moment: Moment) -> Result<(), Memory>
        ensures rules { self.new.rules ≡ self.old.rules }
        ensures refuses { OnOk result
            (self.new
            ≡ record self.old { state = configuration_second Wire.Stands moment self.old.state }) }
    {
        let text = refusal_of_second_client(self.alloc, moment)?;
        self.refusal = Some(Refusal {
            way: Way::Configuration,
            text,
        });
        Ok(())
    }

    fn after_upstream(&mut self, got: Got, bytes: &[u8], moment: Moment) -> Result<(), Memory>
        requires told { self.old.told ≡ [] }
        requires few { length bytes.now ≤ 4096 }
        ensures rules { self.new.rules ≡ self.old.rules }
        ensures after { OnOk result
            (AfterUpstream self.old.rules moment
            (found_of got bytes.now) self.old.state self.new.state self.new.told) }
    {
        match got {
            Got::Arrived => self.connect_upstream(moment),
            Got::Bytes(_) => self.held.hold_bytes(self.alloc, Side::Entry, bytes),
            Got::Closed | Got::Failed => {
                self.held.hold_end(Side::Entry);
                Ok(())
            }
            Got::Second | Got::NotYet => Ok(()),
        }
    }

    fn after_downstream(&mut self, got: Got, bytes: &[u8], moment: Moment) -> Result<(), Memory>
        requires told { self.old.told ≡ [] }
        requires few { length bytes.now ≤ 4096 }
        ensures rules { self.new.rules ≡ self.old.rules }
        ensures after { OnOk result
            (AfterDownstream self.old.rules moment
            (found_of got bytes.now) self.old.state self.new.state self.new.told) }
    {
        match got {
            Got::Arrived => self.accept_downstream(moment),
            Got::Second => self.meet_second(moment),
            Got::Bytes(_) => self.held.hold_bytes(self.alloc, Side::Exit, bytes),
            Got::Closed | Got::Failed => {
                self.held.hold_end(Side::Exit);
                Ok(())
            }
            Got::NotYet => Ok(()),
        }
    }

    /// The connection that was asked for stands, where the machine can take it.
    fn connect_upstream(&mut self, moment: Moment) -> Result<(), Memory>
        requires { self.old.told ≡ [] }
        ensures rules { self.new.rules ≡ self.old.rules }
        ensures after { OnOk result
            (AfterUpstream self.old.rules moment founds.Arrived self.old.state self.new.state
            self.new.told) }
    {
        if self.node.may(&Input::Connect).is_err() {
            return Ok(());
        }
        self.upstream.set_wire(Wire::Stands);
        self.step_unasked(Input::Connect, moment)
    }

    /// The downstream neighbour's connection stands, where the machine can take it.
    fn accept_downstream(&mut self, moment: Moment) -> Result<(), Memory>
        requires { self.old.told ≡ [] }
        ensures rules { self.new.rules ≡ self.old.rules }
        ensures after { OnOk result
            (AfterDownstream self.old.rules moment founds.Arrived self.old.state self.new.state
            self.new.told) }
    {
        if self.node.may(&Input::Accepted).is_err() {
            return Ok(());
        }
        self.downstream.set_wire(Wire::Stands);
        self.step_unasked(Input::Accepted, moment)
    }

    /// The answer to a poll of the panel before what was found of a neighbour is taken.
    pub fn after_look(&mut self, got: Got, bytes: &[u8]) -> Result<(), Memory>
        requires { self.old.told ≡ [] }
        ensures rules { self.new.rules ≡ self.old.rules }
        ensures after { OnOk result
            (AfterLook self.old.rules
            (found_of got bytes.now) self.old.state self.new.state self.new.told) }
    {
        self.note_look(got, bytes);
        self.after_panel(got, bytes)
    }

    /// The panel was polled once more.
    fn note_look(&mut self, got: Got, bytes: &[u8])
        ensures { self.new
            ≡ record self.old { state = looked (found_of got bytes.now) self.old.state } }
    {
        match got {
            Got::NotYet => self.held.look(false),
            Got::Arrived | Got::Second | Got::Bytes(_) | Got::Closed | Got::Failed => {
                self.held.look(true)
            }
        }
    }

    /// What was found of a neighbour is taken: bytes are heard, and the end of a connection has its
    /// way closed.
    pub fn take_held(&mut self, moment: Moment) -> Result<(), Memory>
        requires { self.old.told ≡ [] }
        ensures rules { self.new.rules ≡ self.old.rules }
        ensures takes { OnOk result
            (TakesHeld self.old.rules moment self.old.state self.new.state self.new.told) }
    {
        match self.release() {
            Some(finding) => self.take_found(finding.side, finding.bytes, moment),
            None => Ok(()),
        }
    }

    /// Nothing is held any more.
    fn release(&mut self) -> Option<Finding>
        ensures found { option_map
            (λ found. seen_finding found.side (option_map (λ bytes. bytes.items) found.bytes))
            result
            ≡ self.old.state.held.finding }
        ensures short { IfSome result
            (λ found. IfSome found.bytes (λ bytes. vec_len bytes ≤ 4096)) }
        ensures left { self.new
            ≡ record self.old { state = with_held nothing_held self.old.state } }
    {
        self.held.take()
    }

    fn take_found(
        &mut self,
        side: Side,
        bytes: Option<Vec<u8>>,
        moment: Moment,
    ) -> Result<(), Memory>
        requires told { self.old.told ≡ [] }
        requires short { IfSome bytes (λ bytes. vec_len bytes ≤ 4096) }
        ensures rules { self.new.rules ≡ self.old.rules }
        ensures takes { OnOk result
            (TakesFound (option_map (λ bytes. bytes.items) bytes) side self.old.rules moment
            self.old.state self.new.state self.new.told) }
    {
        match bytes {
            Some(bytes) => self.hear_bytes(side, bytes.as_slice(), moment),
            None => {
                self.see_end(side);
                Ok(())
            }
        }
    }

    fn hear_bytes(&mut self, side: Side, bytes: &[u8], moment: Moment) -> Result<(), Memory>
        requires told { self.old.told ≡ [] }
        requires short { length bytes.now ≤ 4096 }
        ensures rules { self.new.rules ≡ self.old.rules }
        ensures hears { OnOk result
            (HearsBytes self.old.rules moment side bytes.now self.old.state self.new.state
            self.new.told) }
    {
        self.take(Input::Bytes(side, bytes), moment)
    }

    /// A close is seen where the machine has a connection.
    fn see_end(&mut self, side: Side)
        ensures { self.new
            ≡ record self.old {
              state =
                  broken
                  (way_of side) (is_open side self.old.state.node.lane.body) self.old.state;
            } }
    {
        if self.node.may(&Input::Notice(side)).is_ok() {
            self.set_wire(way_of(side), Wire::Breaks);
        }
    }

    /// The answer to sending.
    pub fn after_send(&mut self, way: Way, sent: Sent)
        requires { IsTurnLeft self.old.state.place self.old.state.turn self.old.rules.turns }
        ensures { self.new
            ≡ record self.old { state = after_send way sent (moved_on self.old.state) } }
    {
        self.move_on();
        match sent {
            Sent::Took(count) => self.take_sent(way, count),
            Sent::NotYet => {}
            Sent::Closed | Sent::Failed => self.set_wire(way, Wire::Breaks),
        }
    }

    /// A way was closed: its text is dropped, and the machine notices where its side has a
    /// connection.
    pub fn after_close(&mut self, way: Way, moment: Moment) -> Result<(), Memory>
        requires { self.old.told ≡ [] }
        ensures rules { self.new.rules ≡ self.old.rules }
        ensures after { OnOk result
            (AfterClose self.old.rules moment way self.old.state self.new.state self.new.told) }
    {
        match way {
            Way::Panel => {
                self.leave_panel();
                Ok(())
            }
            Way::Upstream => {
                self.upstream.rest();
                self.take(Input::Notice(Side::Entry), moment)
            }
            Way::Downstream => {
                self.downstream.rest();
                self.take(Input::Notice(Side::Exit), moment)
            }
            Way::Supervisory => {
                self.supervisory.rest();
                self.channel.restart();
                self.end_supervision(moment)
            }
            Way::Configuration => {
                self.leave_client();
                Ok(())
            }
        }
    }

    /// What else came of a client goes with its connection.
    fn leave_client(&mut self)
        ensures { self.new ≡ record self.old { state = configuration_gone self.old.state } }
    {
        self.configuration.rest();
        self.config.restart();
    }

    /// The panel's unfinished line goes with its connection, and so do the lines that follow in
    /// the same answer.
    fn leave_panel(&mut self)
        ensures { self.new ≡ record self.old { state = panel_gone self.old.state } }
    {
        self.panel.rest();
        self.line.clear();
        self.drops = false;
        self.rest.clear();
        self.done = 0;
    }
}

/// The way to the neighbour of a side.
fn way_of(side: Side) -> Way
    ensures { result ≡ way_of side }
{
    match side {
        Side::Entry => Way::Upstream,
        Side::Exit => Way::Downstream,
    }
}
