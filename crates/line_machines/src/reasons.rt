//! Why a line of the script does nothing: the first reason that holds, on the state before the
//! line.

ghost use Rattle.std.specs.Prelude.{◌≡◌, ◌≤◌, IfOk, length};
ghost use Rattle.node_core.specs.declared.input.Input.TheVariants as inputs;
ghost use Rattle.node_core.specs.May.{may_of};
ghost use Rattle.handover_out.specs.State.{is_id};
ghost use Rattle.line_script.specs.Ranges.{IsBetween, IsWithin};
ghost use Rattle.line_script.specs.declared.line.ScriptLine.TheVariants as lines;
ghost use Rattle.line_step.specs.Parts.{where_may};
ghost use Rattle.line_machines.specs.Given.{is_bridge_in};
ghost use Rattle.line_step.specs.Reasons.{behind_own, has_link, has_neighbour, if_there, may_add, may_connect, may_cut, may_do, may_flow, may_give, may_give_away, may_lie, may_notice, may_remove, may_replace, may_sense, may_spoil, may_stop, may_take_in, may_unseen, with_word, word_kept};
ghost use Rattle.line_step.specs.State.{machine_in};
ghost use Rattle.line_step.specs.Together.{IsLineTogether};
ghost use Rattle.supervisory_core.specs.Orders.{answer_to};

use crate::state::State;
use board_record::BoardId;
use line_base::{Memory, Side, Text};
use line_report::Reason;
use line_script::ScriptLine;
use line_world::MoveNo;
use node_core::{Input, No, Node};
use std::alloc::Global;

/// The most machines of a line.
const MOST_MACHINES: usize = 64;

/// A machine's own reason.
fn own(may: Result<(), No>) -> Result<(), Reason>
    ensures { result ≡ behind_own may may_do }
{
    match may {
        Ok(()) => Ok(()),
        Err(no) => Err(Reason::Node(no)),
    }
}

/// The same of an answer to a question. Where that was answered before, the reason has the word
/// that answers it.
fn with_word(alloc: Global, node: &Node, may: Result<(), No>) -> Result<Result<(), Reason>, Memory>
    ensures { IfOk result (λ told. told ≡ with_word node.now may) }
{
    match may {
        Ok(()) => Ok(Ok(())),
        Err(No::Answered(query)) => {
            let word = word_kept(alloc, node, query)?;
            Ok(Err(Reason::Answered(word)))
        }
        Err(no) => Ok(Err(Reason::Node(no))),
    }
}

/// The word that answers a machine's question; none where it has no answer.
fn word_kept(alloc: Global, node: &Node, query: u64) -> Result<Text, Memory>
    ensures { IfOk result (λ word. word ≡ word_kept (answer_to node.now.orders query)) }
{
    match node.kept_answer(query) {
        Some(word) => word.copy(alloc),
        None => Text::plain(alloc, b""),
    }
}

fn node_may_remove(node: &Node, id: BoardId) -> Result<(), No>
    ensures { result ≡ may_of node.now (inputs.Remove id) }
{
    node.may(&Input::Remove(id))
}

fn node_may_replace(node: &Node, id: BoardId) -> Result<(), No>
    ensures { result ≡ may_of node.now (inputs.Replace id) }
{
    node.may(&Input::Replace(id))
}

fn node_may_reach(node: &Node, side: Side) -> Result<(), No>
    ensures { result ≡ may_of node.now (inputs.Notice side) }
{
    node.may(&Input::Notice(side))
}

fn node_may_connect(node: &Node) -> Result<(), No>
    ensures { result ≡ may_of node.now inputs.Connect }
{
    node.may(&Input::Connect)
}

/// Whether a board was offered last.
fn was_offered(node: &Node, id: BoardId) -> bool
    ensures { result ≡ is_id node.now.lane.body.last_offer id }
{
    match node.last_offer() {
        Some(offered) => offered == id,
        None => false,
    }
}

impl State {
    /// Whether a side has a neighbour.
    fn has_neighbour(&self, machine: u32, side: Side) -> bool
        ensures { result ≡ has_neighbour machine side self.now }
    {
        match side {
            Side::Entry => 1 < machine,
            Side::Exit => (machine as usize) < self.machines.len(),
        }
    }

    /// Whether there is a gap of this number, and so the link of that number: behind each machine
    /// but the last.
    pub fn has_link(&self, link: u32) -> bool
        ensures { result ≡ has_link link self.now }
    {
        1 <= link && (link as usize) < self.machines.len()
    }

    /// Whether a machine more may come: `LineFull` where there are 64.
    pub fn may_add(&self) -> Result<(), Reason>
        ensures { result ≡ may_add self.now }
    {
        if MOST_MACHINES <= self.machines.len() {
            return Err(Reason::LineFull);
        }
        Ok(())
    }

    /// `NoSuchMachine`, and then the machine's own reasons.
    pub(crate) fn may_give(&self, machine: u32, input: &Input<'_>) -> Result<(), Reason>
        ensures { result ≡ may_give machine input.now self.now }
    {
        match self.machine(machine) {
            None => Err(Reason::NoSuchMachine),
            Some(node) => own(node.may(input)),
        }
    }

    /// Of an answer to a question: `NoSuchMachine`, and then the machine's own reasons, but
    /// `Answered` with the work order that the question was answered with.
    pub(crate) fn may_answer(
        &self,
        machine: u32,
        input: &Input<'_>,
    ) -> Result<Result<(), Reason>, Memory>
        ensures { IfOk result
            (λ may. may ≡ if_there (machine_in machine self.now)
            (λ node. with_word node (may_of node input.now))) }
    {
        match self.machine(machine) {
            None => Ok(Err(Reason::NoSuchMachine)),
            Some(node) => with_word(self.alloc, node, node.may(input)),
        }
    }

    /// `NoSuchMachine`, `NotKept`, `NotHere`.
    pub(crate) fn may_remove(&self, machine: u32, id: BoardId) -> Result<(), Reason>
        requires { IsLineTogether self.now }
        ensures { result ≡ may_remove machine id self.now }
    {
        let Some(node) = self.machine(machine) else {
            return Err(Reason::NoSuchMachine);
        };
        if let Err(no) = node_may_remove(node, id) {
            return Err(Reason::Node(no));
        }
        if !self.world.is_here(machine, id) {
            return Err(Reason::NotHere);
        }
        Ok(())
    }

    /// `NoSuchMachine`, `NotKept`, `NotHere`, `IdsUsedUp`.
    pub(crate) fn may_replace(&self, machine: u32, id: BoardId) -> Result<(), Reason>
        requires { IsLineTogether self.now }
        ensures { result ≡ may_replace machine id self.now }
    {
        let Some(node) = self.machine(machine) else {
            return Err(Reason::NoSuchMachine);
        };
        if let Err(no) = node_may_remove(node, id) {
            return Err(Reason::Node(no));
        }
        if !self.world.is_here(machine, id) {
            return Err(Reason::NotHere);
        }
        own(node_may_replace(node, id))
    }

    /// `NoSuchMachine`, `NoNeighbour`, `Connected`, `IntakeUnsettled`.
    pub(crate) fn may_connect(&self, machine: u32) -> Result<(), Reason>
        ensures { result ≡ may_connect machine self.now }
    {
        let Some(node) = self.machine(machine) else {
            return Err(Reason::NoSuchMachine);
        };
        if !self.has_neighbour(machine, Side::Entry) {
            return Err(Reason::NoNeighbour);
        }
        own(node_may_connect(node))
    }

    /// `NoSuchMachine`, `NoNeighbour`, `NotConnected`, `NothingInFlight`.
    pub(crate) fn may_flow(&self, machine: u32, side: Side) -> Result<(), Reason>
        ensures { result ≡ may_flow machine side self.now }
    {
        let Some(node) = self.machine(machine) else {
            return Err(Reason::NoSuchMachine);
        };
        if !self.has_neighbour(machine, side) {
            return Err(Reason::NoNeighbour);
        }
        if let Err(no) = node_may_reach(node, side) {
            return Err(Reason::Node(no));
        }
        if self.world.is_dry_at(machine, side) {
            return Err(Reason::NothingInFlight);
        }
        Ok(())
    }

    /// `NoSuchMachine`, `NoNeighbour`, `NotConnected`, `Standing`, `TextInFlight`.
    pub(crate) fn may_notice(&self, machine: u32, side: Side) -> Result<(), Reason>
        ensures { result ≡ may_notice machine side self.now }
    {
        let Some(node) = self.machine(machine) else {
            return Err(Reason::NoSuchMachine);
        };
        if !self.has_neighbour(machine, side) {
            return Err(Reason::NoNeighbour);
        }
        if let Err(no) = node_may_reach(node, side) {
            return Err(Reason::Node(no));
        }
        if self.world.stands_at(machine, side) {
            return Err(Reason::Standing);
        }
        if !self.world.is_dry_at(machine, side) {
            return Err(Reason::TextInFlight);
        }
        Ok(())
    }

    /// `NoGap`, `NotConnected`.
    pub(crate) fn may_cut(&self, gap: u32) -> Result<(), Reason>
        ensures { result ≡ may_cut gap self.now }
    {
        if !self.has_link(gap) {
            return Err(Reason::Move(MoveNo::NoGap));
        }
        if self.world.is_loose(gap) {
            return Err(Reason::Node(No::NotConnected));
        }
        Ok(())
    }

    /// `NoSuchMachine`, `NoNeighbour`, `NotConnected`, `NotStanding`.
    pub(crate) fn may_spoil(&self, machine: u32, side: Side) -> Result<(), Reason>
        ensures { result ≡ may_spoil machine side self.now }
    {
        let Some(_node) = self.machine(machine) else {
            return Err(Reason::NoSuchMachine);
        };
        if !self.has_neighbour(machine, side) {
            return Err(Reason::NoNeighbour);
        }
        if !self.world.is_linked(machine, side) {
            return Err(Reason::Node(No::NotConnected));
        }
        if !self.world.stands_at(machine, side) {
            return Err(Reason::Node(No::NotStanding));
        }
        Ok(())
    }

    /// `NoSuchMachine`, `NothingToRead`.
    pub(crate) fn may_sense(&self, machine: u32) -> Result<(), Reason>
        requires { IsLineTogether self.now }
        ensures { result ≡ may_sense machine self.now }
    {
        let Some(_node) = self.machine(machine) else {
            return Err(Reason::NoSuchMachine);
        };
        if !self.world.has_unread(machine) {
            return Err(Reason::NothingToRead);
        }
        Ok(())
    }

    /// Whether a machine may be stopped: `NoSuchMachine` where it isn't there.
    pub fn may_stop(&self, machine: u32) -> Result<(), Reason>
        ensures { result ≡ may_stop machine self.now }
    {
        match self.machine(machine) {
            Some(_node) => Ok(()),
            None => Err(Reason::NoSuchMachine),
        }
    }

    /// `NoSuchMachine`, `NotABridge`, and for a board that is to go `NothingThere`.
    pub(crate) fn may_unseen(&self, machine: u32, side: Side) -> Result<(), Reason>
        requires { IsLineTogether self.now }
        ensures { result ≡ may_unseen machine side self.now }
    {
        let Some(node) = self.machine(machine) else {
            return Err(Reason::NoSuchMachine);
        };
        if !node.is_bridge() {
            return Err(Reason::Node(No::NotABridge));
        }
        if self.world.is_bare(machine, side) {
            return Err(Reason::Move(MoveNo::NothingThere));
        }
        Ok(())
    }

    /// Whether a machine is there: `NoSuchMachine` where it isn't.
    pub fn may_find(&self, machine: u32) -> Result<(), Reason>
        ensures { result ≡ if_there (machine_in machine self.now) (λ node. may_do) }
    {
        match self.machine(machine) {
            Some(_node) => Ok(()),
            None => Err(Reason::NoSuchMachine),
        }
    }

    /// Whether a machine is there and a bridge.
    pub fn is_bridge(&self, machine: u32) -> bool
        ensures { result ≡ is_bridge_in machine self.now }
    {
        match self.machine(machine) {
            Some(node) => node.is_bridge(),
            None => false,
        }
    }

    /// Whether a machine may give a board to another of its lanes. The first reason against it:
    /// `NoSuchMachine` where it isn't there, `Bridge` where it is one, `NotKept` where it doesn't
    /// keep the board, `NotHere` where the board doesn't lie at it, `WasOffered` where it offered
    /// the board last.
    pub fn may_give_away(&self, machine: u32, id: BoardId) -> Result<(), Reason>
        requires { IsLineTogether self.now }
        ensures { result ≡ may_give_away machine id self.now }
    {
        let Some(node) = self.machine(machine) else {
            return Err(Reason::NoSuchMachine);
        };
        if node.is_bridge() {
            return Err(Reason::Node(No::Bridge));
        }
        if let Err(no) = node_may_remove(node, id) {
            return Err(Reason::Node(no));
        }
        if !self.world.is_here(machine, id) {
            return Err(Reason::NotHere);
        }
        if was_offered(node, id) {
            return Err(Reason::Node(No::WasOffered));
        }
        Ok(())
    }

    /// Whether a machine may get a board from another of its lanes. The first reason against it:
    /// `NoSuchMachine` where it isn't there, `IntakeOpen` where a handover goes on at its intake,
    /// `Full` where it has no place.
    pub fn may_take_in(&self, machine: u32) -> Result<(), Reason>
        ensures { result ≡ may_take_in machine self.now }
    {
        match self.machine(machine) {
            None => Err(Reason::NoSuchMachine),
            Some(node) => own(node.may_get()),
        }
    }

    /// `NoSuchMachine`, `NoNeighbour`.
    pub(crate) fn may_lie(&self, machine: u32, side: Side) -> Result<(), Reason>
        ensures { result ≡ may_lie machine side self.now }
    {
        let Some(_node) = self.machine(machine) else {
            return Err(Reason::NoSuchMachine);
        };
        if !self.has_neighbour(machine, side) {
            return Err(Reason::NoNeighbour);
        }
        Ok(())
    }

    /// The line that cuts this gap where no reason stands against it, and else a blank one.
    pub fn cut_where(&self, gap: u32) -> ScriptLine
        ensures line { result ≡ where_may (may_cut gap self.now) (lines.Cut gap) }
        ensures within { length self.now.machines ≤ 64 → IsWithin result }
    {
        match self.may_cut(gap) {
            Ok(()) => ScriptLine::Cut { gap },
            Err(_) => ScriptLine::Blank,
        }
    }

    /// The line by which a machine notices that its connection at a side has gone, where no reason
    /// stands against it, and else a blank one.
    pub fn notice_where(&self, machine: u32, side: Side) -> ScriptLine
        requires { IsBetween 1 64 machine }
        ensures line { result ≡ where_may (may_notice machine side self.now) (lines.Notice machine side) }
        ensures within { IsWithin result }
    {
        match self.may_notice(machine, side) {
            Ok(()) => ScriptLine::Notice { machine, side },
            Err(_) => ScriptLine::Blank,
        }
    }
}
