ghost use Rattle.std.specs.Prelude.{◌≡◌, ◌≤◌, ◌<◌, ◌^◌, ◌++◌, [], true, false, Err, IsErr, IfOk, IfErr, OnErr, OnOk};
ghost use Rattle.line_base.specs.declared.states.Side.TheVariants.{Exit};
ghost use Rattle.node_core.specs.May.{may_do, may_of};
ghost use Rattle.node_core.specs.declared.input.Input.TheVariants as inputs;
ghost use Rattle.machine_port.specs.Port.{HasClosed, HasStepped, closed_by, dropped, is_second, made_after, may_take, new_port, one_step_more, on_ways, routed, said_to_second, sent, sent_refusal, way_at, with_way};
ghost use Rattle.machine_port.specs.Ways.{at_rest, said_at};

use crate::error::NotDone;
use crate::levels::Levels;
use crate::way::{Outgoing, drop_front};
use board_record::Sensed;
use hermes_horizontal::write_horizontal;
use line_base::{Memory, Moment, Side, Text};
use node_core::{Act, Input, No, Node, NodeProfile, Outputs};
use std::alloc::Global;
use std::marker::Model;
use supervised_end::Channel;

/// As far as steps are counted.
const MOST_STEPS: u64 = 18_446_744_073_709_551_615;

/// One machine behind its port.
///
/// Once memory was wanting it is spent: each later step answers `Memory`, its drives are to stand
/// still and its connections to be closed.
#[derive(Drop)]
pub struct Port {
    pub(crate) alloc: Global,
    pub(crate) spent: bool,
    pub(crate) name: Text,
    number: u32,
    made: u64,
    steps: u64,
    pub(crate) node: Node,
    entry: Outgoing,
    exit: Outgoing,
    pub(crate) supervisor: Outgoing,
    pub(crate) channel: Channel,
    pub(crate) refusal: Vec<u8>,
    levels: Levels,
    pub(crate) last: Outputs,
}

impl Model for Port {
    ghost use Rattle.std.specs.Prelude.{◌≡◌, ◌<◌, ◌^◌, false};
    ghost use Rattle.machine_port.specs.Port.{PortState};

    ghost Value = { PortState };

    ghost view = { λ port. record {
      spent = port.spent;
      name = port.name;
      number = port.number;
      made = port.made;
      steps = port.steps;
      node = port.node;
      entry = port.entry;
      exit = port.exit;
      supervisor = port.supervisor;
      channel = port.channel;
      refusal = port.refusal.items;
      levels = port.levels;
      last = port.last;
    } };

    // the count of ids is that of its machine
    ghost invariant = { λ port. (port.made < 2 ^ 48)
        × (port.spent ≡ false → port.made ≡ port.node.maker.used) };
}

impl Port {
    /// A new machine without connections: all levels are off, and nothing waits.
    pub fn new(alloc: Global, profile: NodeProfile) -> Result<Port, Memory>
        requires least { 1 ≤ profile.capacity }
        requires most { profile.capacity ≤ 1024 }
        requires used { profile.used < 2 ^ 48 }
        ensures { IfOk result (λ port. port ≡ new_port profile) }
    {
        let name = profile.machine.copy(alloc)?;
        let number = profile.number;
        let made = profile.used;
        let channel = Channel::new(alloc)?;
        let node = match Node::new(alloc, profile) {
            Ok(node) => node,
            Err(Memory) => {
                drop(channel);
                return Err(Memory);
            }
        };
        Ok(Port {
            alloc,
            spent: false,
            name,
            number,
            made,
            steps: 0,
            node,
            entry: Outgoing::new(alloc),
            exit: Outgoing::new(alloc),
            supervisor: Outgoing::new(alloc),
            channel,
            refusal: Vec::new(alloc),
            levels: Levels::off(),
            last: Outputs::new(alloc),
        })
    }

    /// Makes one step: the machine reads these sensor events, takes the input and makes the
    /// announcements that are due. Its messages wait on their ways, at a second connection the
    /// first of them as the text for that; its levels are those of its acts; and a way that it
    /// closes is to be closed.
    ///
    /// `No` where the machine can't take the input now, or the connection before it is still to be
    /// closed: nothing changes then. `Memory` where there is none; the port is spent then.
    pub fn step(
        &mut self,
        sensed: &[Sensed],
        input: Input<'_>,
        moment: Moment,
    ) -> Result<(), NotDone>
        ensures spent { self.old.spent ≡ true → result ≡ Err NotDone.Memory }
        ensures no { self.old.spent ≡ false → IfErr (may_take self.old input.entry)
            (λ why. result ≡ Err (NotDone.No why)) }
        ensures stays { IfErr result (λ why. ¬ (why ≡ NotDone.Memory) → self.new ≡ self.old) }
        ensures memory { self.old.spent ≡ false → may_take self.old input.entry ≡ may_do
            → IfErr result (λ why. why ≡ NotDone.Memory) }
        ensures lost { result ≡ Err NotDone.Memory → self.new.spent ≡ true }
        // an id that a step made is counted, too, where memory was wanting behind it
        ensures counted { self.old.spent ≡ false → self.new.spent ≡ true
            → self.new.made ≡ made_after input.entry self.old.made }
        ensures still { self.old.spent ≡ true → self.new ≡ self.old }
        ensures stepped { OnOk result
            (HasStepped sensed.now input.entry moment self.old self.new) }
    {
        if self.spent {
            return Err(NotDone::Memory);
        }
        if let Err(why) = self.may_take(&input) {
            return Err(NotDone::No(why));
        }
        match self.take(sensed, input, moment) {
            Ok(()) => Ok(()),
            Err(Memory) => Err(NotDone::Memory),
        }
    }

    /// The connection of a side is closed, by whomever: what waits there is dropped, and where the
    /// machine has a connection there still it makes a step; else it does nothing, and there are no
    /// last acts.
    ///
    /// `Memory` where there is none; the port is spent then.
    pub fn close(&mut self, side: Side, moment: Moment) -> Result<(), Memory>
        ensures spent { self.old.spent ≡ true → IsErr result }
        ensures lost { OnErr result (self.new.spent ≡ true) }
        ensures counted { self.new.made ≡ self.old.made }
        ensures still { self.old.spent ≡ true → self.new ≡ self.old }
        ensures closed { OnOk result
            (HasClosed (may_of self.old.node (inputs.Notice side)) side moment self.old self.new) }
    {
        if self.spent {
            return Err(Memory);
        }
        if self.node.may(&Input::Notice(side)).is_err() {
            self.rest(side);
            self.last = Outputs::new(self.alloc);
            return Ok(());
        }
        self.take(&[], Input::Notice(side), moment)
    }

    /// Whether the machine can take an input now.
    pub fn may_take(&self, input: &Input<'_>) -> Result<(), No>
        ensures { result ≡ may_take self.now input.now }
    {
        match input {
            Input::Connect if self.entry.closes() => Err(No::Connected),
            Input::Accepted if self.exit.closes() => Err(No::Connected),
            _ => self.node.may(input),
        }
    }

    /// A step, where the machine can take the input.
    pub(crate) fn take(
        &mut self,
        sensed: &[Sensed],
        input: Input<'_>,
        moment: Moment,
    ) -> Result<(), Memory>
        requires unspent { self.old.spent ≡ false }
        requires may { may_of self.old.node input ≡ may_do }
        ensures lost { OnErr result (self.new.spent ≡ true) }
        ensures counted { self.new.made ≡ made_after input.entry self.old.made }
        ensures stepped { OnOk result
            (HasStepped sensed.now input.entry moment self.old self.new) }
    {
        let made = self.made_after(&input);
        let steps = self.one_step_more();
        self.spent = true;
        self.made = made;
        let second = is_second(&input);
        self.drop_closed(&input);
        let acts = self.node.step(sensed, input, moment)?;
        self.route(second, acts.list())?;
        self.levels.obey(acts.list());
        self.last = acts;
        self.steps = steps;
        self.spent = false;
        Ok(())
    }

    /// How many ids are made, once this input was given.
    fn made_after(&self, input: &Input<'_>) -> u64
        requires unspent { self.now.spent ≡ false }
        requires may { may_of self.now.node input.now ≡ may_do }
        ensures same { result ≡ made_after input.now self.now.made }
        ensures bounded { result < 2 ^ 48 }
    {
        match input {
            Input::Insert(_) | Input::Replace(_) => self.made + 1,
            _ => self.made,
        }
    }

    /// How many steps are made with one more.
    fn one_step_more(&self) -> u64
        ensures { result ≡ one_step_more self.now.steps }
    {
        if self.steps < MOST_STEPS {
            self.steps + 1
        } else {
            self.steps
        }
    }

    /// What waits on a connection that is found closed is dropped.
    fn drop_closed(&mut self, input: &Input<'_>)
        ensures { self.new ≡ dropped (closed_by input.now) self.old }
    {
        if let Input::Notice(side) = input {
            self.rest(*side);
        }
    }

    fn rest(&mut self, side: Side)
        ensures { self.new ≡ with_way side at_rest self.old }
    {
        match side {
            Side::Entry => self.entry.rest(),
            Side::Exit => self.exit.rest(),
        }
    }

    /// The messages of a step's acts go their ways, at a second connection the first to that.
    fn route(&mut self, second: bool, acts: &[Act]) -> Result<(), Memory>
        ensures lost { self.new.spent ≡ self.old.spent }
        ensures counted { self.new.made ≡ self.old.made }
        ensures routed { OnOk result (self.new ≡ routed second acts.now self.old) }
    {
        if second {
            return self.say_to_second(acts);
        }
        self.put(acts)
    }

    fn put(&mut self, acts: &[Act]) -> Result<(), Memory>
        ensures lost { self.new.spent ≡ self.old.spent }
        ensures counted { self.new.made ≡ self.old.made }
        ensures put { OnOk result (self.new ≡ on_ways acts.now self.old) }
    {
        self.entry.put(Side::Entry, acts)?;
        self.exit.put(Side::Exit, acts)?;
        self.supervisor.put_told(self.channel.stands(), acts)
    }

    fn say_to_second(&mut self, acts: &[Act]) -> Result<(), Memory>
        ensures lost { self.new.spent ≡ self.old.spent }
        ensures counted { self.new.made ≡ self.old.made }
        ensures said { OnOk result (self.new ≡ said_to_second acts.now self.old) }
    {
        self.refusal.clear();
        match acts.split_first() {
            Some((first, others)) => {
                write_said(first, &mut self.refusal)?;
                self.put(others)
            }
            None => self.put(acts),
        }
    }

    /// The machine: what it keeps, how its sides stand.
    pub fn node(&self) -> &Node
        ensures { result.now ≡ self.now.node }
    {
        &self.node
    }

    /// The number in the ids that it makes.
    pub fn number(&self) -> u32
        ensures { result ≡ self.now.number }
    {
        self.number
    }

    /// How many ids it made, with those before it was new.
    pub fn ids_made(&self) -> u64
        ensures count { result ≡ self.now.made }
        ensures machine { self.now.spent ≡ false → self.now.made ≡ self.now.node.maker.used }
    {
        self.made
    }

    /// How many steps it made, as far as 64 bits count.
    pub fn steps(&self) -> u64
        ensures { result ≡ self.now.steps }
    {
        self.steps
    }

    /// Whether memory was wanting.
    pub fn is_spent(&self) -> bool
        ensures { result ≡ self.now.spent }
    {
        self.spent
    }

    /// The way of a side: what waits there, and whether its connection is to be closed.
    pub fn way(&self, side: Side) -> &Outgoing
        ensures { result.now ≡ way_at side self.now }
    {
        match side {
            Side::Entry => &self.entry,
            Side::Exit => &self.exit,
        }
    }

    /// The text for a second connection, which is to be closed behind it.
    pub fn refusal(&self) -> &[u8]
        ensures { result.now ≡ self.now.refusal }
    {
        self.refusal.as_slice()
    }

    /// How its drives and signals are to stand.
    pub fn levels(&self) -> Levels
        ensures { result ≡ self.now.levels }
    {
        self.levels
    }

    /// The acts of the last step, in their order.
    pub fn last(&self) -> &[Act]
        ensures { result.now ≡ self.now.last }
    {
        self.last.list()
    }

    /// So many bytes from the front of a way were sent: all, where there are fewer.
    pub fn sent(&mut self, side: Side, count: usize)
        ensures { self.new ≡ sent side count self.old }
    {
        match side {
            Side::Entry => self.entry.take_front(count),
            Side::Exit => self.exit.take_front(count),
        }
    }

    /// So many bytes of the text for a second connection were sent.
    pub fn sent_refusal(&mut self, count: usize)
        ensures { self.new ≡ sent_refusal count self.old }
    {
        drop_front(&mut self.refusal, count);
    }
}

fn is_second(input: &Input<'_>) -> bool
    ensures { result ≡ is_second input.now }
{
    match input {
        Input::Second => true,
        _ => false,
    }
}

/// Appends what an act says at the exit.
fn write_said(act: &Act, to: &mut Vec<u8>) -> Result<(), Memory>
    ensures { OnOk result (to.new.items ≡ to.old.items ++ said_at Exit act.now) }
{
    match act {
        Act::Sends(Side::Exit, message) => write_horizontal(message, to),
        _ => Ok(()),
    }
}
