ghost use Rattle.std.specs.Prelude.{◌≡◌, ◌↔◌, ◌≤◌, length, option_map, true};
ghost use Rattle.node_core.specs.Shared.{shared_of};
ghost use Rattle.line_machines.specs.Sharing.{AreNumbered, shared_in, sharing};
ghost use Rattle.line_link.specs.Flow.{coming};
ghost use Rattle.line_link.specs.Link.{flow_to};
ghost use Rattle.line_step.specs.World.{end_of, link_at, link_of};
ghost use Rattle.std.specs.Option.{option_copied};
ghost use Rattle.line_step.specs.State.{machine_in, no_line};
ghost use Rattle.line_step.specs.Views.{summary_of};

use line_acts::World;
use line_base::{Memory, Side};
use line_report::Summary;
use node_core::{Node, Shared};
use std::alloc::Global;
use std::marker::Model;

/// The machines of one lane along a line, with the links between them and the floor under them,
/// and how much of the script was done. It is seen as a line that is not spent. What stands together
/// in it is asked by its calls, and kept by who owns it.
#[derive(Drop)]
pub struct State {
    pub(crate) alloc: Global,
    pub(crate) machines: Vec<Node>,
    pub(crate) world: World,
    pub(crate) lines: u64,
    pub(crate) unvouched: Option<u64>,
}

impl Model for State {
    ghost use Rattle.std.specs.Prelude.{false};
    ghost use Rattle.line_step.specs.State.{LineState};

    ghost Value = { LineState };

    ghost view = { λ state.
        record {
          spent = false;
          machines = state.machines.items;
          world = state.world;
          lines = state.lines;
          unvouched = state.unvouched;
        } };
}

impl State {
    /// The machine of a number; `None` exactly where there is none.
    pub(crate) fn machine(&self, machine: u32) -> Option<&Node>
        ensures { option_copied result ≡ machine_in machine self.now }
    {
        if machine == 0 {
            return None;
        }
        self.machines.get(machine as usize - 1)
    }

    /// The machines of the line.
    pub fn machines(&self) -> &[Node]
        ensures { result.now ≡ self.now.machines }
    {
        self.machines.as_slice()
    }

    /// So many lines were done.
    pub fn set_lines(&mut self, lines: u64)
        ensures { self.new ≡ record self.old { lines = lines } }
    {
        self.lines = lines;
    }

    /// How many lines were done.
    pub fn lines(&self) -> u64
        ensures { result ≡ self.now.lines }
    {
        self.lines
    }

    /// The first line that told what was not so, or moved a board unseen.
    pub fn unvouched(&self) -> Option<u64>
        ensures { result ≡ self.now.unvouched }
    {
        self.unvouched
    }

    /// A line without a machine, of which so much was done.
    pub fn empty(alloc: Global, lines: u64, unvouched: Option<u64>) -> State
        ensures { result ≡ record no_line { lines = lines; unvouched = unvouched } }
    {
        State {
            alloc,
            machines: Vec::new(alloc),
            world: World::new(alloc),
            lines,
            unvouched,
        }
    }

    /// Nobody vouches for it from this line on, if there is one.
    pub fn set_unvouched(&mut self, unvouched: Option<u64>)
        ensures { self.new ≡ record self.old { unvouched = unvouched } }
    {
        self.unvouched = unvouched;
    }

    /// What the lanes of a machine share, as the machine has it here; `None` where there is no such
    /// machine.
    pub fn shared(&self, machine: u32) -> Option<Shared>
        requires { AreNumbered self.now }
        ensures { result ≡ option_map shared_of (machine_in machine self.now) }
    {
        match self.machine(machine) {
            None => None,
            Some(node) => Some(node.shared(machine)),
        }
    }

    /// Whether a machine has the same to share here and on another lane; so it is where it stands on
    /// neither.
    pub fn shares_alike(&self, machine: u32, other: &State) -> bool
        requires numbered { AreNumbered self.now }
        requires other { AreNumbered other.now }
        ensures { (result ≡ true) ↔ (shared_in machine self.now ≡ shared_in machine other.now) }
    {
        match (self.machine(machine), other.machine(machine)) {
            (Some(one), Some(two)) => one.shares_alike(two),
            (None, None) => true,
            (_, _) => false,
        }
    }

    /// A machine follows another of its lanes in what they share.
    pub fn share(&mut self, machine: u32, with: &Shared)
        ensures { self.new ≡ sharing machine with.now self.old }
    {
        if machine == 0 || self.machines.len() < machine as usize {
            return;
        }
        self.machines[machine as usize - 1].share(with);
    }

    /// How many bytes are on their way to a side.
    pub fn in_flight(&self, machine: u32, side: Side) -> usize
        ensures count { result ≡ length
            (coming (flow_to (end_of side) (link_at (link_of machine side) self.now.world))) }
        ensures bounded { result ≤ 1048576 }
    {
        self.world.coming_to(machine, side)
    }

    /// The numbers of the report's last line.
    pub fn summary(&self) -> Summary
        ensures { result ≡ summary_of self.now }
    {
        Summary {
            lines: self.lines,
            boards: self.world.boards() as u64,
            opened: self.world.opened(),
            settled: self.world.settled(),
            unvouched: self.unvouched,
        }
    }
}
