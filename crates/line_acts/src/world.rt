ghost use Rattle.std.specs.Prelude.{◌≡◌, ◌+◌, ◌≤◌, ◌∷◌, [], ◌++◌, IfOk, OnErr, OnOk, None, length, true};
ghost use Rattle.hermes_horizontal.specs.Canonical.{canonical};
ghost use Rattle.line_link.specs.Flow.{coming};
ghost use Rattle.line_link.specs.Link.{after_close, after_connect, after_flow, after_spoil, answer_sent, connected_of, cut, flow_to, sent_of, spoil_sent};
ghost use Rattle.line_world.specs.FloorPlan.{IsMachine, machine_at, one_machine_more, with_unread};
ghost use Rattle.line_world.specs.Boards.{boards_on};
ghost use Rattle.line_world.specs.Moves.{AnswersFloor};
ghost use Rattle.line_step.specs.World.{end_of, link_at, link_of, links_more, no_world, piece_for, with_floor, with_link};
ghost use Rattle.line_step.specs.Acts.{answers_on, changes, drives_on, lays, sends_on, takes_off};
ghost use Rattle.line_step.specs.Reasons.{has_unread, is_bare, is_dry_at, is_here, is_loose, link_stands};
ghost use Rattle.line_step.specs.Lines.{unseen_on};
ghost use Rattle.line_step.specs.Together.{is_linked};

use crate::links::{end_of, link_of, place_of};
use board_record::{BoardId, Sensed};
use hermes_horizontal::{Message, write_horizontal};
use line_base::{Memory, Role, Side};
use line_link::{Connected, Link, Sent};
use line_world::{Board, Floor, Move, MoveError, Sensors};
use std::alloc::Global;
use std::marker::Model;

/// What the machines of a line meet outside of them: the links between neighbours, the floor, and
/// how many handovers were opened and how many boards settled.
///
/// A link that isn't there, that before the first machine or behind the last, is one on which
/// nothing is connected.
#[derive(Drop)]
pub struct World {
    alloc: Global,
    links: Vec<Link>,
    floor: Floor,
    opened: u64,
    settled: u64,
    /// The text that is being sent.
    text: Vec<u8>,
}

impl Model for World {
    ghost use Rattle.line_step.specs.World.{WorldParts};

    ghost Value = { WorldParts };

    ghost view = { λ world.
        record {
          links = world.links.items;
          floor = world.floor;
          opened = world.opened;
          settled = world.settled;
        } };
}

impl World {
    /// A world without a machine.
    pub fn new(alloc: Global) -> World
        ensures { result ≡ no_world }
    {
        World {
            alloc,
            links: Vec::new(alloc),
            floor: Floor::new(alloc),
            opened: 0,
            settled: 0,
            text: Vec::new(alloc),
        }
    }

    /// One machine more at the downstream end, with a link before it where it isn't the first.
    /// `Memory` where there is no room for both: the world is as it was then.
    pub fn add_machine(&mut self) -> Result<(), Memory>
        ensures floor { OnOk result (self.new.floor ≡ one_machine_more self.old.floor) }
        ensures links { OnOk result
            (self.new.links ≡ links_more (length self.old.floor.machines) self.old.links) }
        ensures counts { OnOk result ((self.new.opened ≡ self.old.opened)
            × (self.new.settled ≡ self.old.settled)) }
        ensures unchanged { OnErr result (self.new ≡ self.old) }
    {
        if self.floor.machines() == 0 {
            return self.floor.add_machine();
        }
        let links = self.links.len();
        if self.links.push(Link::new(self.alloc)).is_err() {
            return Err(Memory);
        }
        match self.floor.add_machine() {
            Ok(()) => Ok(()),
            Err(Memory) => {
                self.links.truncate(links);
                Err(Memory)
            }
        }
    }

    /// How many boards lie on the floor.
    pub fn boards(&self) -> usize
        ensures { result ≡ length (boards_on self.now.floor) }
    {
        self.floor.boards()
    }

    /// How many handovers were opened.
    pub fn opened(&self) -> u64
        ensures { result ≡ self.now.opened }
    {
        self.opened
    }

    /// How many boards settled.
    pub fn settled(&self) -> u64
        ensures { result ≡ self.now.settled }
    {
        self.settled
    }

    /// How many bytes are on their way to a side.
    pub fn coming_to(&self, machine: u32, side: Side) -> usize
        ensures count { result ≡ length
            (coming (flow_to (end_of side) (link_at (link_of machine side) self.now))) }
        ensures bounded { result ≤ 1048576 }
    {
        match place_of(self.links.as_slice(), link_of(machine, side)) {
            Some(place) => {
                let link = &self.links[place];
                link.together();
                link.coming(end_of(side))
            }
            None => 0,
        }
    }

    // ---- what the reasons ask

    /// Whether no bytes are on their way to a side.
    pub fn is_dry_at(&self, machine: u32, side: Side) -> bool
        ensures { result ≡ is_dry_at machine side self.now }
    {
        match place_of(self.links.as_slice(), link_of(machine, side)) {
            Some(place) => self.links[place].coming(end_of(side)) == 0,
            None => true,
        }
    }

    /// Whether the link at a side stands.
    pub fn stands_at(&self, machine: u32, side: Side) -> bool
        ensures { result ≡ link_stands machine side self.now }
    {
        match place_of(self.links.as_slice(), link_of(machine, side)) {
            Some(place) => self.links[place].stands(),
            None => false,
        }
    }

    /// Whether a side's end of its link has a connection.
    pub fn is_linked(&self, machine: u32, side: Side) -> bool
        ensures { result ≡ is_linked machine side self.now }
    {
        match place_of(self.links.as_slice(), link_of(machine, side)) {
            Some(place) => self.links[place].number(end_of(side)).is_some(),
            None => false,
        }
    }

    /// Whether neither end of a link has a connection.
    pub fn is_loose(&self, link: u32) -> bool
        ensures { result ≡ is_loose (link_at link self.now) }
    {
        match place_of(self.links.as_slice(), link) {
            Some(place) => {
                let link = &self.links[place];
                link.number(Role::Upstream).is_none() && link.number(Role::Downstream).is_none()
            }
            None => true,
        }
    }

    /// Whether a board lies at a machine.
    pub fn is_here(&self, machine: u32, id: BoardId) -> bool
        requires { IsMachine self.now.floor machine }
        ensures { result ≡ is_here machine id self.now }
    {
        self.floor.place_of(machine as usize, id).is_some()
    }

    /// Whether a machine's sensors saw what it has not read.
    pub fn has_unread(&self, machine: u32) -> bool
        requires { IsMachine self.now.floor machine }
        ensures { result ≡ has_unread machine self.now }
    {
        !self.floor.unread(machine as usize).is_empty()
    }

    /// Whether a board is to go from a machine and none lies there.
    pub fn is_bare(&self, machine: u32, side: Side) -> bool
        requires { IsMachine self.now.floor machine }
        ensures { result ≡ is_bare machine side self.now }
    {
        match side {
            Side::Entry => false,
            Side::Exit => self.floor.list(machine as usize).get(0).is_none(),
        }
    }

    // ---- what befalls links

    /// A machine sends a message at a side. `Memory` where there is no room for it: nothing is
    /// sent then.
    pub fn send(&mut self, machine: u32, side: Side, message: &Message) -> Result<Sent, Memory>
        ensures after { IfOk result
            (λ _. self.new ≡ sends_on machine side (canonical message.now) self.old) }
        ensures sent { IfOk result
            (λ sent. sent ≡ sent_of (end_of side) (canonical message.now)
            (link_at (link_of machine side) self.old)) }
        ensures machines { IfOk result (λ _. length self.new.floor.machines ≡ length self.old.floor.machines) }
        ensures unchanged { OnErr result (self.new ≡ self.old) }
    {
        spell(message, &mut self.text)?;
        match place_of(self.links.as_slice(), link_of(machine, side)) {
            Some(place) => self.links[place].send(end_of(side), self.text.as_slice()),
            None => Ok(Sent::Vanishes),
        }
    }

    /// A machine answers a second connection at its exit. `Memory` where there is no room for the
    /// answer: nothing is sent then.
    pub fn answer(&mut self, machine: u32, message: &Message) -> Result<Sent, Memory>
        ensures after { IfOk result (λ _. self.new ≡ answers_on machine (canonical message.now) self.old) }
        ensures sent { IfOk result
            (λ sent. sent ≡ answer_sent (canonical message.now) (link_at machine self.old)) }
        ensures machines { IfOk result (λ _. length self.new.floor.machines ≡ length self.old.floor.machines) }
        ensures unchanged { OnErr result (self.new ≡ self.old) }
    {
        spell(message, &mut self.text)?;
        match place_of(self.links.as_slice(), machine) {
            Some(place) => self.links[place].answer_second(self.text.as_slice()),
            None => Ok(Sent::Vanishes),
        }
    }

    /// A machine closes at a side.
    pub fn close(&mut self, machine: u32, side: Side)
        ensures after { self.new
            ≡ with_link (link_of machine side)
            (after_close (end_of side) (link_at (link_of machine side) self.old)) self.old }
        ensures machines { length self.new.floor.machines ≡ length self.old.floor.machines }
    {
        if let Some(place) = place_of(self.links.as_slice(), link_of(machine, side)) {
            self.links[place].close(end_of(side));
        }
    }

    /// The next bytes to arrive at a side; they are lent, and arrive by `arrive`.
    pub fn next(&self, machine: u32, side: Side, count: Option<u32>) -> &[u8]
        ensures { result.now ≡ piece_for machine side count self.now }
    {
        match place_of(self.links.as_slice(), link_of(machine, side)) {
            Some(place) => self.links[place].next(end_of(side), count),
            None => &[],
        }
    }

    /// Bytes arrive at a side.
    pub fn arrive(&mut self, machine: u32, side: Side, count: Option<u32>)
        ensures after { self.new
            ≡ with_link (link_of machine side)
            (after_flow (end_of side) count (link_at (link_of machine side) self.old)) self.old }
        ensures machines { length self.new.floor.machines ≡ length self.old.floor.machines }
    {
        if let Some(place) = place_of(self.links.as_slice(), link_of(machine, side)) {
            self.links[place].arrive(end_of(side), count);
        }
    }

    /// The machine below a link connects.
    pub fn connect(&mut self, link: u32) -> Connected
        requires { (link_at link self.old).downstream ≡ None }
        ensures after { self.new ≡ with_link link (after_connect (link_at link self.old)) self.old }
        ensures connected { result ≡ connected_of (link_at link self.old).upstream }
        ensures machines { length self.new.floor.machines ≡ length self.old.floor.machines }
    {
        match place_of(self.links.as_slice(), link) {
            Some(place) => self.links[place].connect(),
            None => Connected::Accepted,
        }
    }

    /// A link is cut.
    pub fn cut(&mut self, link: u32)
        ensures { self.new ≡ with_link link (cut (link_at link self.old)) self.old }
    {
        if let Some(place) = place_of(self.links.as_slice(), link) {
            self.links[place].cut();
        }
    }

    /// What flows to a side of a link that stands is spoiled. `Memory` where there is no room for
    /// it: nothing is spoiled then.
    pub fn spoil(&mut self, machine: u32, side: Side) -> Result<Sent, Memory>
        requires { link_stands machine side self.old ≡ true }
        ensures after { IfOk result
            (λ _. self.new
            ≡ with_link (link_of machine side)
            (after_spoil (end_of side) (link_at (link_of machine side) self.old)) self.old) }
        ensures sent { IfOk result
            (λ sent. sent ≡ spoil_sent (end_of side) (link_at (link_of machine side) self.old)) }
        ensures unchanged { OnErr result (self.new ≡ self.old) }
    {
        match place_of(self.links.as_slice(), link_of(machine, side)) {
            Some(place) => self.links[place].spoil(end_of(side)),
            None => Ok(Sent::Vanishes),
        }
    }

    // ---- what befalls the floor

    /// A machine switches its drive at a side.
    pub fn set_drive(&mut self, machine: u32, side: Side, on: bool)
        ensures after { self.new ≡ with_floor (drives_on machine side on self.old.floor) self.old }
        ensures machines { length self.new.floor.machines ≡ length self.old.floor.machines }
    {
        let gap = link_of(machine, side) as usize;
        if gap == 0 || gap >= self.floor.machines() {
            return;
        }
        self.floor.set_drive(gap, side, on);
    }

    /// A new board lies at a machine's back. `Memory` where there is no room for it: none is laid
    /// there then.
    pub fn lay(&mut self, machine: u32, id: BoardId) -> Result<(), Memory>
        requires { IsMachine self.old.floor machine }
        ensures after { OnOk result (self.new ≡ with_floor (lays machine id self.old.floor) self.old) }
        ensures machines { OnOk result (length self.new.floor.machines ≡ length self.old.floor.machines) }
        ensures unchanged { OnErr result (self.new ≡ self.old) }
    {
        self.floor.place(machine as usize, Board { id: Some(id) })
    }

    /// A board is taken out of a machine.
    pub fn take_off(&mut self, machine: u32, id: BoardId)
        requires { IsMachine self.old.floor machine }
        ensures after { self.new ≡ with_floor (takes_off machine id self.old.floor) self.old }
        ensures machines { length self.new.floor.machines ≡ length self.old.floor.machines }
    {
        let _gone = self.floor.remove(machine as usize, id);
    }

    /// A new board lies in the place of another.
    pub fn change(&mut self, machine: u32, old: BoardId, new: BoardId)
        requires { IsMachine self.old.floor machine }
        ensures after { self.new ≡ with_floor (changes machine old new self.old.floor) self.old }
        ensures machines { length self.new.floor.machines ≡ length self.old.floor.machines }
    {
        let _found = self.floor.replace(machine as usize, old, new);
    }

    /// Does a move at a gap.
    pub fn move_board(&mut self, gap: u32, step: Move) -> Result<(), MoveError>
        ensures answer { AnswersFloor gap step self.old.floor self.new.floor result }
        ensures others { self.new ≡ with_floor self.new.floor self.old }
    {
        self.floor.apply(gap as usize, step)
    }

    /// Takes the sensor events that a machine hasn't read. `Memory` where there is no room for
    /// their list: they stay unread then.
    pub fn read_all(&mut self, machine: u32) -> Result<Sensors, Memory>
        requires { IsMachine self.old.floor machine }
        ensures events { IfOk result (λ events. events ≡ (machine_at self.old.floor machine).unread) }
        ensures after { OnOk result
            (self.new ≡ with_floor (with_unread self.old.floor machine []) self.old) }
        ensures machines { IfOk result (λ _. length self.new.floor.machines ≡ length self.old.floor.machines) }
        ensures unchanged { OnErr result (self.new ≡ self.old) }
    {
        self.floor.read_all(machine as usize)
    }

    /// A machine's sensors tell what was not so. `Memory` where there is no room for it: they tell
    /// nothing then.
    pub fn lie(&mut self, machine: u32, sensed: Sensed) -> Result<(), Memory>
        requires { IsMachine self.old.floor machine }
        ensures after { OnOk result
            (self.new
            ≡ with_floor
            (with_unread self.old.floor machine
            ((machine_at self.old.floor machine).unread ++ sensed ∷ [])) self.old) }
        ensures unchanged { OnErr result (self.new ≡ self.old) }
    {
        self.floor.lie(machine as usize, sensed)
    }

    /// A board without id comes to a machine's back, or its front board goes, and no sensor sees
    /// it. `Memory` where there is no room for it: none comes then.
    pub fn unseen(&mut self, machine: u32, side: Side) -> Result<(), Memory>
        requires { IsMachine self.old.floor machine }
        ensures after { OnOk result
            (self.new ≡ with_floor (unseen_on machine side self.old.floor) self.old) }
        ensures unchanged { OnErr result (self.new ≡ self.old) }
    {
        match side {
            Side::Entry => self.floor.place(machine as usize, Board { id: None }),
            Side::Exit => {
                let _gone = self.floor.unseen_out(machine as usize);
                Ok(())
            }
        }
    }

    // ---- what is counted

    /// A handover was opened.
    pub fn count_opened(&mut self) -> Result<(), Memory>
        ensures after { OnOk result (self.new ≡ record self.old { opened = self.old.opened + 1 }) }
        ensures machines { OnOk result (length self.new.floor.machines ≡ length self.old.floor.machines) }
        ensures unchanged { OnErr result (self.new ≡ self.old) }
    {
        if self.opened == u64::MAX {
            return Err(Memory);
        }
        self.opened += 1;
        Ok(())
    }

    /// A board settled.
    pub fn count_settled(&mut self) -> Result<(), Memory>
        ensures after { OnOk result (self.new ≡ record self.old { settled = self.old.settled + 1 }) }
        ensures machines { OnOk result (length self.new.floor.machines ≡ length self.old.floor.machines) }
        ensures unchanged { OnErr result (self.new ≡ self.old) }
    {
        if self.settled == u64::MAX {
            return Err(Memory);
        }
        self.settled += 1;
        Ok(())
    }
}

/// The text of a message, in place of what stood there.
fn spell(message: &Message, text: &mut Vec<u8>) -> Result<(), Memory>
    ensures { OnOk result (text.new.items ≡ canonical message.now) }
{
    text.clear();
    write_horizontal(message, text)
}
