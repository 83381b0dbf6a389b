//! A machine of the line makes a step, and connections are made.

ghost use Rattle.std.specs.Prelude.{◌≡◌, ◌-◌, ◌≤◌, IfOk, OnOk, length};
ghost use Rattle.line_step.specs.Lines.{Connects, Flows, met};
ghost use Rattle.line_step.specs.Reasons.{may_connect, may_do, may_give_away, may_take_in};
ghost use Rattle.line_step.specs.Steps.{MachineSteps, TellsStep, is_second, moment_of};
ghost use Rattle.line_step.specs.Together.{IsLineTogether};
ghost use Rattle.node_core.specs.declared.input.Input.TheVariants as inputs;
ghost use Rattle.line_machines.specs.Given.{GivesBoard, IsGiven};

use crate::state::State;
use board_record::BoardId;
use line_acts::{Teller, do_acts};
use line_base::{Memory, Moment, Side};
use line_link::Connected;
use line_report::Happened;
use node_core::{Input, Passage};

/// Whether an input is a second connection.
fn is_second(input: &Input<'_>) -> bool
    ensures { result ≡ is_second input.now }
{
    matches!(input, Input::Second)
}

/// The moment of a line of the script.
fn moment_of(number: u64) -> Moment
    requires { number ≤ 1000000 }
    ensures { result ≡ moment_of number }
{
    Moment::of_millis(number as i64)
}

/// What the upstream machine of a link meets.
fn met(connected: Connected) -> Input<'static>
    ensures { result ≡ met connected }
{
    match connected {
        Connected::Accepted => Input::Accepted,
        Connected::Second => Input::Second,
    }
}

/// What a machine did as it gave a board to another of its lanes, and the board's record.
#[derive(Drop)]
pub struct Gave {
    pub told: Happened,
    pub board: Passage,
}

impl State {
    /// A machine makes a step, and what it did is told behind what was told before.
    #[inline(always)]
    fn step_telling(
        &mut self,
        number: u64,
        machine: u32,
        input: Input<'_>,
        told: &mut Happened,
    ) -> Result<(), Memory>
        requires few { number ≤ 1000000 }
        requires floor { length self.old.world.floor.machines ≡ length self.old.machines }
        requires given { IsGiven machine input self.old }
        ensures step { OnOk result
            (TellsStep number machine input.entry self.old self.new told.old told.new) }
        ensures floor { OnOk result (length self.new.world.floor.machines ≡ length self.new.machines) }
    {
        let teller = Teller {
            machine,
            second: is_second(&input),
        };
        let sensed = self.world.read_all(machine)?;
        let moment = moment_of(number);
        let node = &mut self.machines[machine as usize - 1];
        let acts = node.step(sensed.list(), input, moment)?;
        do_acts(&teller, acts, &mut self.world, told)?;
        Ok(())
    }

    /// A machine makes a step.
    pub(crate) fn step_machine(
        &mut self,
        number: u64,
        machine: u32,
        input: Input<'_>,
    ) -> Result<Happened, Memory>
        requires few { number ≤ 1000000 }
        requires together { IsLineTogether self.old }
        requires given { IsGiven machine input self.old }
        ensures { IfOk result (MachineSteps number machine input.entry self.old self.new) }
    {
        let mut told = Happened::new(self.alloc);
        self.step_telling(number, machine, input, &mut told)?;
        Ok(told)
    }

    /// A machine connects, and the one above it meets the connection. The connection's numbers and
    /// whether it stands are set before the first of the two steps.
    pub(crate) fn make_connection(&mut self, number: u64, machine: u32) -> Result<Happened, Memory>
        requires few { number ≤ 1000000 }
        requires together { IsLineTogether self.old }
        requires may { may_connect machine self.old ≡ may_do }
        ensures { IfOk result (Connects number machine self.old self.new) }
    {
        let above = machine.saturating_sub(1);
        let meets = met(self.world.connect(above));
        let mut told = Happened::new(self.alloc);
        self.step_telling(number, machine, Input::Connect, &mut told)?;
        self.step_telling(number, above, meets, &mut told)?;
        Ok(told)
    }

    /// A machine hears bytes that arrive. They are lent by the link while it does.
    pub(crate) fn hear(
        &mut self,
        number: u64,
        machine: u32,
        side: Side,
        count: Option<u32>,
    ) -> Result<Happened, Memory>
        requires few { number ≤ 1000000 }
        requires together { IsLineTogether self.old }
        requires given { IsGiven machine (inputs.Notice side) self.old }
        ensures { IfOk result (Flows number machine side count self.old self.new) }
    {
        let teller = Teller {
            machine,
            second: false,
        };
        let sensed = self.world.read_all(machine)?;
        let moment = moment_of(number);
        let piece = self.world.next(machine, side, count);
        let node = &mut self.machines[machine as usize - 1];
        let acts = node.step(sensed.list(), Input::Bytes(side, piece), moment)?;
        self.world.arrive(machine, side, count);
        let mut told = Happened::new(self.alloc);
        do_acts(&teller, acts, &mut self.world, &mut told)?;
        Ok(told)
    }

    /// A machine gives a board to another of its lanes, and what it did is answered with the
    /// board's record. `Memory` where there is none for what happened, for records and texts.
    pub fn give_away(
        &mut self,
        number: u64,
        machine: u32,
        id: BoardId,
        to: u32,
    ) -> Result<Gave, Memory>
        requires few { number ≤ 1000000 }
        requires together { IsLineTogether self.old }
        requires may { may_give_away machine id self.old ≡ may_do }
        ensures { IfOk result
            (λ gave. GivesBoard number machine id to self.old self.new gave.told gave.board) }
    {
        let teller = Teller {
            machine,
            second: false,
        };
        let sensed = self.world.read_all(machine)?;
        let moment = moment_of(number);
        let node = &mut self.machines[machine as usize - 1];
        let given = node.give(sensed.list(), id, to, moment)?;
        let mut told = Happened::new(self.alloc);
        do_acts(&teller, given.acts, &mut self.world, &mut told)?;
        Ok(Gave {
            told,
            board: given.board,
        })
    }

    /// A machine gets a board from another of its lanes, and what it did is answered. `Memory`
    /// where there is none for what happened, for records and texts.
    pub fn take_in(&mut self, number: u64, machine: u32, board: Passage) -> Result<Happened, Memory>
        requires few { number ≤ 1000000 }
        requires together { IsLineTogether self.old }
        requires may { may_take_in machine self.old ≡ may_do }
        ensures { IfOk result (MachineSteps number machine (inputs.Gets board) self.old self.new) }
    {
        let teller = Teller {
            machine,
            second: false,
        };
        let sensed = self.world.read_all(machine)?;
        let moment = moment_of(number);
        let node = &mut self.machines[machine as usize - 1];
        let acts = node.get(sensed.list(), board, moment)?;
        let mut told = Happened::new(self.alloc);
        do_acts(&teller, acts, &mut self.world, &mut told)?;
        Ok(told)
    }
}
