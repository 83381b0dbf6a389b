//! What a line of the script does.

ghost use Rattle.std.specs.Prelude.{◌≡◌, ◌+◌, ◌-◌, ◌≤◌, ◌<◌, ◌^◌, ◌||◌, ℕ, [], ◌∷◌, ◌++◌, IfOk, OnOk, length, true};
ghost use Rattle.node_core.specs.Node.{new_node};
ghost use Rattle.node_core.specs.declared.input.Input.TheVariants as inputs;
ghost use Rattle.line_report.specs.declared.happening.Happening.TheVariants as happenings;
ghost use Rattle.line_step.specs.Lines.{Becomes, Connects, Flows, LineDoes, Moves, Unless, cut_in, first_of, lied, spoil_told, spoiled, unseen, unvouched_told};
ghost use Rattle.line_step.specs.Reasons.{may_answer, may_connect, may_cut, may_do, may_flow, may_give, may_lie, may_notice, may_remove, may_replace, may_sense, may_spoil, may_unseen};
ghost use Rattle.line_step.specs.Requests.{request_of};
ghost use Rattle.line_step.specs.State.{one_more, profile_of};
ghost use Rattle.line_step.specs.Steps.{MachineSteps};
ghost use Rattle.line_step.specs.Together.{IsLineTogether};
ghost use Rattle.line_machines.specs.Given.{IsGiven, is_given, is_move, is_of_lane};

use crate::state::State;
use board_record::{BoardId, Sensed};
use hermes_vertical::Question;
use line_acts::{link_of, tell_cut};
use line_base::{Memory, Side, Text};
use line_report::{Happened, Happening, Reason};
use line_script::ScriptLine;
use line_world::{Move, MoveError};
use node_core::{Input, Node, NodeProfile, SegmentLine};
use std::alloc::Global;
use std::io::Write;

impl State {
    /// Does a line of the script that is of one lane, and answers what it did, or the first reason
    /// against it. The standings that it changed are told elsewhere. `Memory` where there is none
    /// for what happened, for records and texts: the line is to be spent then.
    pub fn do_line(&mut self, number: u64, line: &ScriptLine) -> Result<Happened, Memory>
        requires few { number ≤ 1000000 }
        requires own { is_of_lane line.now ≡ true }
        requires together { IsLineTogether self.old }
        ensures { IfOk result (LineDoes number (request_of line.now) self.old self.new) }
    {
        match line {
            ScriptLine::Remove { machine, id } => self.remove(number, *machine, *id),
            ScriptLine::Replace { machine, id } => self.replace(number, *machine, *id),
            ScriptLine::Connect { machine } => self.connect(number, *machine),
            ScriptLine::Flow {
                machine,
                side,
                bytes,
            } => self.flow(number, *machine, *side, *bytes),
            ScriptLine::Notice { machine, side } => self.notice(number, *machine, *side),
            ScriptLine::Cut { gap } => self.cut(*gap),
            ScriptLine::Spoil { machine, side } => self.spoil(*machine, *side),
            ScriptLine::Sense { machine } => self.sense(number, *machine),
            ScriptLine::Lie { machine, sensed } => self.lie(number, *machine, *sensed),
            ScriptLine::Unseen { machine, side } => self.unseen(number, *machine, *side),
            ScriptLine::Answer {
                machine,
                query,
                order,
            } => self.answer(number, *machine, *query, order),
            _ => self.do_given(number, line),
        }
    }

    /// Does a line that gives a machine an input against which it alone can tell all reasons, or
    /// moves a board.
    fn do_given(&mut self, number: u64, line: &ScriptLine) -> Result<Happened, Memory>
        requires few { number ≤ 1000000 }
        requires given { (is_given line.now || is_move line.now) ≡ true }
        requires together { IsLineTogether self.old }
        ensures { IfOk result (LineDoes number (request_of line.now) self.old self.new) }
    {
        match line {
            ScriptLine::Insert { machine, barcode } => self.insert(number, *machine, barcode),
            ScriptLine::Mark {
                machine,
                id,
                quality,
            } => self.give(number, *machine, Input::Mark(*id, *quality)),
            ScriptLine::Sub {
                machine,
                id,
                pos,
                barcode,
            } => self.sub(number, *machine, *id, *pos, barcode),
            ScriptLine::Hold { machine, side } => self.will(number, *machine, *side, false),
            ScriptLine::Go { machine, side } => self.will(number, *machine, *side, true),
            ScriptLine::Signal { machine, line, on } => self.signal(number, *machine, *line, *on),
            ScriptLine::Shutdown { machine } => self.give(number, *machine, Input::Shutdown),
            ScriptLine::Tick { machine } => self.give(number, *machine, Input::Tick),
            ScriptLine::Fault { machine, side } => self.fault(number, *machine, *side),
            ScriptLine::Forecast { machine } => self.give(number, *machine, Input::Forecast),
            ScriptLine::Query { machine, barcode } => self.query(number, *machine, barcode),
            ScriptLine::Supervise { machine } => self.supervise(number, *machine),
            ScriptLine::Ask { machine, question } => self.ask(number, *machine, question),
            _ => self.do_move(line),
        }
    }

    /// Does a line that moves a board on the floor.
    fn do_move(&mut self, line: &ScriptLine) -> Result<Happened, Memory>
        requires { is_move line.now ≡ true }
        ensures { (number : ℕ) → IfOk result (LineDoes number (request_of line.now) self.old self.new) }
    {
        match line {
            ScriptLine::Begin { gap } => self.move_board(*gap, Move::Begin),
            ScriptLine::Left { gap } => self.move_board(*gap, Move::Left),
            ScriptLine::Enter { gap } => self.move_board(*gap, Move::Enter),
            ScriptLine::Back { gap } => self.move_board(*gap, Move::Back),
            ScriptLine::HandIn { gap } => self.move_board(*gap, Move::HandIn),
            ScriptLine::Take { gap } => self.move_board(*gap, Move::Take),
            _ => unreachable!(),
        }
    }

    /// Nothing is done, for this reason.
    fn refuse(&self, reason: Reason) -> Result<Happened, Memory>
        ensures { IfOk result (λ told. told ≡ happenings.No reason ∷ []) }
    {
        self.only(Happening::No(reason))
    }

    /// This alone happened.
    fn only(&self, happening: Happening) -> Result<Happened, Memory>
        ensures { IfOk result (λ told. told ≡ happening ∷ []) }
    {
        let mut told = Happened::new(self.alloc);
        told.tell(happening)?;
        Ok(told)
    }

    // ---- machines

    /// One machine more at the downstream end, which is a bridge or none, with this lane as its
    /// LaneId, room for `capacity` boards, and `used` ids made before. `Memory` where there is no
    /// room for it.
    pub fn add_machine(
        &mut self,
        lane: u32,
        is_bridge: bool,
        capacity: u32,
        used: u64,
    ) -> Result<(), Memory>
        requires least { 1 ≤ capacity }
        requires most { capacity ≤ 1024 }
        requires used { used < 2 ^ 48 }
        requires few { length self.old.machines < 64 }
        requires together { IsLineTogether self.old }
        ensures { OnOk result (self.new ≡ one_more lane is_bridge capacity used self.old) }
    {
        let number = self.machines.len() as u32 + 1;
        self.world.add_machine()?;
        let profile = Profile {
            lane,
            is_bridge,
            number,
            capacity,
            used,
        };
        add_node(&mut self.machines, &profile)
    }

    /// A machine is given an input, unless a reason stands against it.
    fn step_unless(
        &mut self,
        may: Result<(), Reason>,
        number: u64,
        machine: u32,
        input: Input<'_>,
    ) -> Result<Happened, Memory>
        requires few { number ≤ 1000000 }
        requires together { IsLineTogether self.old }
        requires given { may ≡ may_do → IsGiven machine input self.old }
        ensures { IfOk result
            (λ told. Unless may self.old self.new told
            (MachineSteps number machine input.entry self.old self.new told)) }
    {
        if let Err(reason) = may {
            return self.refuse(reason);
        }
        self.step_machine(number, machine, input)
    }

    fn give(&mut self, number: u64, machine: u32, input: Input<'_>) -> Result<Happened, Memory>
        requires few { number ≤ 1000000 }
        requires together { IsLineTogether self.old }
        ensures { IfOk result
            (λ told. Unless (may_give machine input.entry self.old) self.old self.new told
            (MachineSteps number machine input.entry self.old self.new told)) }
    {
        let may = self.may_give(machine, &input);
        self.step_unless(may, number, machine, input)
    }

    fn insert(
        &mut self,
        number: u64,
        machine: u32,
        barcode: &Option<Text>,
    ) -> Result<Happened, Memory>
        requires few { number ≤ 1000000 }
        requires together { IsLineTogether self.old }
        ensures { IfOk result
            (λ told. Unless
            (may_give machine (inputs.Insert barcode.now) self.old) self.old self.new told
            (MachineSteps number machine (inputs.Insert barcode.now) self.old self.new told)) }
    {
        let barcode = copy_of(self.alloc, barcode)?;
        self.give(number, machine, Input::Insert(barcode))
    }

    /// A board, a panel, has a circuit more.
    fn sub(
        &mut self,
        number: u64,
        machine: u32,
        id: BoardId,
        pos: u32,
        barcode: &Option<Text>,
    ) -> Result<Happened, Memory>
        requires few { number ≤ 1000000 }
        requires together { IsLineTogether self.old }
        ensures { IfOk result
            (λ told. Unless
            (may_give machine (inputs.Sub id pos barcode.now) self.old) self.old self.new told
            (MachineSteps number machine (inputs.Sub id pos barcode.now) self.old self.new told)) }
    {
        let barcode = copy_of(self.alloc, barcode)?;
        self.give(number, machine, Input::Sub { id, pos, barcode })
    }

    fn remove(&mut self, number: u64, machine: u32, id: BoardId) -> Result<Happened, Memory>
        requires few { number ≤ 1000000 }
        requires together { IsLineTogether self.old }
        ensures { IfOk result
            (λ told. Unless (may_remove machine id self.old) self.old self.new told
            (MachineSteps number machine (inputs.Remove id) self.old self.new told)) }
    {
        let may = self.may_remove(machine, id);
        self.step_unless(may, number, machine, Input::Remove(id))
    }

    fn replace(&mut self, number: u64, machine: u32, id: BoardId) -> Result<Happened, Memory>
        requires few { number ≤ 1000000 }
        requires together { IsLineTogether self.old }
        ensures { IfOk result
            (λ told. Unless (may_replace machine id self.old) self.old self.new told
            (MachineSteps number machine (inputs.Replace id) self.old self.new told)) }
    {
        let may = self.may_replace(machine, id);
        self.step_unless(may, number, machine, Input::Replace(id))
    }

    /// A machine hands boards over at a side, or no more.
    fn will(&mut self, number: u64, machine: u32, side: Side, on: bool) -> Result<Happened, Memory>
        requires few { number ≤ 1000000 }
        requires together { IsLineTogether self.old }
        ensures { IfOk result
            (λ told. Unless
            (may_give machine (inputs.Will side on) self.old) self.old self.new told
            (MachineSteps number machine (inputs.Will side on) self.old self.new told)) }
    {
        self.give(number, machine, Input::Will(side, on))
    }

    /// The segment of a bridge switches one of its signals.
    fn signal(
        &mut self,
        number: u64,
        machine: u32,
        line: SegmentLine,
        on: bool,
    ) -> Result<Happened, Memory>
        requires few { number ≤ 1000000 }
        requires together { IsLineTogether self.old }
        ensures { IfOk result
            (λ told. Unless
            (may_give machine (inputs.Level line on) self.old) self.old self.new told
            (MachineSteps number machine (inputs.Level line on) self.old self.new told)) }
    {
        self.give(number, machine, Input::Level(line, on))
    }

    /// A machine asks its upstream neighbour for the board with a barcode.
    fn query(&mut self, number: u64, machine: u32, barcode: &Text) -> Result<Happened, Memory>
        requires few { number ≤ 1000000 }
        requires together { IsLineTogether self.old }
        ensures { IfOk result
            (λ told. Unless
            (may_give machine (inputs.Query barcode.now) self.old) self.old self.new told
            (MachineSteps number machine (inputs.Query barcode.now) self.old self.new told)) }
    {
        let barcode = barcode.copy(self.alloc)?;
        self.give(number, machine, Input::Query(barcode))
    }

    /// The drive at a side fails.
    fn fault(&mut self, number: u64, machine: u32, side: Side) -> Result<Happened, Memory>
        requires few { number ≤ 1000000 }
        requires together { IsLineTogether self.old }
        ensures { IfOk result
            (λ told. Unless (may_give machine (inputs.Fault side) self.old) self.old self.new told
            (MachineSteps number machine (inputs.Fault side) self.old self.new told)) }
    {
        self.give(number, machine, Input::Fault(side))
    }

    /// A machine is supervised from now on.
    fn supervise(&mut self, number: u64, machine: u32) -> Result<Happened, Memory>
        requires few { number ≤ 1000000 }
        requires together { IsLineTogether self.old }
        ensures { IfOk result
            (λ told. Unless
            (may_give machine (inputs.Supervise true) self.old) self.old self.new told
            (MachineSteps number machine (inputs.Supervise true) self.old self.new told)) }
    {
        self.give(number, machine, Input::Supervise(true))
    }

    /// A machine asks its supervisor for a work order.
    fn ask(&mut self, number: u64, machine: u32, question: &Question) -> Result<Happened, Memory>
        requires few { number ≤ 1000000 }
        requires together { IsLineTogether self.old }
        ensures { IfOk result
            (λ told. Unless
            (may_give machine (inputs.Ask question.now) self.old) self.old self.new told
            (MachineSteps number machine (inputs.Ask question.now) self.old self.new told)) }
    {
        let question = question.copy(self.alloc)?;
        self.give(number, machine, Input::Ask(question))
    }

    /// The supervisor answers a machine's question of this number. The reason against a second
    /// answer has the first.
    #[tactic(auto, using(crate::proofs::Answered::answer_given))]
    fn answer(
        &mut self,
        number: u64,
        machine: u32,
        query: u64,
        order: &Text,
    ) -> Result<Happened, Memory>
        requires few { number ≤ 1000000 }
        requires together { IsLineTogether self.old }
        ensures { IfOk result
            (λ told. Unless (may_answer machine query order.now self.old) self.old self.new told
            (MachineSteps number machine (inputs.Answer query order.now) self.old self.new told)) }
    {
        let order = order.copy(self.alloc)?;
        let input = Input::Answer { query, order };
        let may = self.may_answer(machine, &input)?;
        self.step_unless(may, number, machine, input)
    }

    fn sense(&mut self, number: u64, machine: u32) -> Result<Happened, Memory>
        requires few { number ≤ 1000000 }
        requires together { IsLineTogether self.old }
        ensures { IfOk result
            (λ told. Unless (may_sense machine self.old) self.old self.new told
            (MachineSteps number machine inputs.Nothing self.old self.new told)) }
    {
        let may = self.may_sense(machine);
        self.step_unless(may, number, machine, Input::Nothing)
    }

    // ---- links

    fn connect(&mut self, number: u64, machine: u32) -> Result<Happened, Memory>
        requires few { number ≤ 1000000 }
        requires together { IsLineTogether self.old }
        ensures { IfOk result
            (λ told. Unless (may_connect machine self.old) self.old self.new told
            (Connects number machine self.old self.new told)) }
    {
        if let Err(reason) = self.may_connect(machine) {
            return self.refuse(reason);
        }
        self.make_connection(number, machine)
    }

    fn flow(
        &mut self,
        number: u64,
        machine: u32,
        side: Side,
        count: Option<u32>,
    ) -> Result<Happened, Memory>
        requires few { number ≤ 1000000 }
        requires together { IsLineTogether self.old }
        ensures { IfOk result
            (λ told. Unless (may_flow machine side self.old) self.old self.new told
            (Flows number machine side count self.old self.new told)) }
    {
        if let Err(reason) = self.may_flow(machine, side) {
            return self.refuse(reason);
        }
        self.hear(number, machine, side, count)
    }

    fn notice(&mut self, number: u64, machine: u32, side: Side) -> Result<Happened, Memory>
        requires few { number ≤ 1000000 }
        requires together { IsLineTogether self.old }
        ensures { IfOk result
            (λ told. Unless (may_notice machine side self.old) self.old self.new told
            (MachineSteps number machine (inputs.Notice side) self.old self.new told)) }
    {
        let may = self.may_notice(machine, side);
        self.step_unless(may, number, machine, Input::Notice(side))
    }

    fn cut(&mut self, gap: u32) -> Result<Happened, Memory>
        ensures { IfOk result
            (λ told. Unless (may_cut gap self.old) self.old self.new told
            (Becomes (cut_in gap self.old) (happenings.Cut gap ∷ []) self.new told)) }
    {
        if let Err(reason) = self.may_cut(gap) {
            return self.refuse(reason);
        }
        self.world.cut(gap);
        self.only(Happening::Cut { gap })
    }

    fn spoil(&mut self, machine: u32, side: Side) -> Result<Happened, Memory>
        ensures { IfOk result
            (λ told. Unless (may_spoil machine side self.old) self.old self.new told
            (Becomes (spoiled machine side self.old)
            (spoil_told machine side self.old) self.new told)) }
    {
        if let Err(reason) = self.may_spoil(machine, side) {
            return self.refuse(reason);
        }
        let sent = self.world.spoil(machine, side)?;
        let mut told = self.only(Happening::Spoils { machine, side })?;
        tell_cut(link_of(machine, side), sent, &mut told)?;
        Ok(told)
    }

    // ---- the floor

    fn move_board(&mut self, gap: u32, step: Move) -> Result<Happened, Memory>
        ensures { IfOk result (Moves gap step self.old self.new) }
    {
        match self.world.move_board(gap, step) {
            Ok(()) => self.only(Happening::Moved { gap, step }),
            Err(MoveError::No(why)) => self.refuse(Reason::Move(why)),
            Err(MoveError::Memory) => Err(Memory),
        }
    }

    fn lie(&mut self, number: u64, machine: u32, sensed: Sensed) -> Result<Happened, Memory>
        requires { IsLineTogether self.old }
        ensures { IfOk result
            (λ told. Unless (may_lie machine sensed.side self.old) self.old self.new told
            (Becomes (lied number machine sensed self.old)
            (happenings.Lie machine sensed ∷ unvouched_told self.old.unvouched) self.new told)) }
    {
        if let Err(reason) = self.may_lie(machine, sensed.side) {
            return self.refuse(reason);
        }
        self.world.lie(machine, sensed)?;
        let told = self.only(Happening::Lie { machine, sensed })?;
        self.doubt(number, told)
    }

    /// A board comes out of a bridge's segment, or goes into it, and no sensor sees it.
    fn unseen(&mut self, number: u64, machine: u32, side: Side) -> Result<Happened, Memory>
        requires { IsLineTogether self.old }
        ensures { IfOk result
            (λ told. Unless (may_unseen machine side self.old) self.old self.new told
            (Becomes (unseen number machine side self.old)
            (happenings.Unseen machine side ∷ unvouched_told self.old.unvouched) self.new told)) }
    {
        if let Err(reason) = self.may_unseen(machine, side) {
            return self.refuse(reason);
        }
        self.world.unseen(machine, side)?;
        let told = self.only(Happening::Unseen { machine, side })?;
        self.doubt(number, told)
    }

    /// The first line that told what was not so, or moved a board unseen, is told as the one from
    /// which on nobody vouches for the standings.
    fn doubt(&mut self, number: u64, mut told: Happened) -> Result<Happened, Memory>
        ensures told { IfOk result (λ more. more ≡ told ++ unvouched_told self.old.unvouched) }
        ensures after { IfOk result
            (λ _. self.new ≡ record self.old { unvouched = first_of number self.old.unvouched }) }
    {
        match self.unvouched {
            Some(_) => Ok(told),
            None => {
                self.unvouched = Some(number);
                told.tell(Happening::Unvouched)?;
                Ok(told)
            }
        }
    }
}

fn copy_of(alloc: Global, barcode: &Option<Text>) -> Result<Option<Text>, Memory>
    ensures { IfOk result (λ copy. copy ≡ barcode.now) }
{
    match barcode {
        None => Ok(None),
        Some(text) => Ok(Some(text.copy(alloc)?)),
    }
}

/// What a machine of the line is made from.
#[derive(Clone, Copy)]
struct Profile {
    lane: u32,
    is_bridge: bool,
    number: u32,
    capacity: u32,
    used: u64,
}

/// One machine more. `Memory` where there is no room for it.
fn add_node(machines: &mut Vec<Node>, profile: &Profile) -> Result<(), Memory>
    requires least { 1 ≤ profile.now.capacity }
    requires most { profile.now.capacity ≤ 1024 }
    requires used { profile.now.used < 2 ^ 48 }
    ensures { OnOk result
        (machines.new.items ≡ machines.old.items
        ++ new_node
        (profile_of profile.now.lane profile.now.is_bridge profile.now.number profile.now.capacity
        profile.now.used) ∷ []) }
{
    let node = new_node(*machines.allocator(), profile)?;
    machines.push(node)?;
    Ok(())
}

/// A machine of the line: its id text is `M` and its number, and its LaneId that of the lane.
#[tactic(auto, using(crate::proofs::Naming::name_is_plain))]
fn new_node(alloc: Global, profile: &Profile) -> Result<Node, Memory>
    requires least { 1 ≤ profile.now.capacity }
    requires most { profile.now.capacity ≤ 1024 }
    requires used { profile.now.used < 2 ^ 48 }
    ensures { IfOk result
        (λ node. node
        ≡ new_node
        (profile_of profile.now.lane profile.now.is_bridge profile.now.number profile.now.capacity
        profile.now.used)) }
{
    let mut name = Vec::new(alloc);
    let number = profile.number;
    match write!(name, "M{number}") {
        Ok(()) => {}
        Err(_) => return Err(Memory),
    }
    let made = NodeProfile {
        number,
        machine: Text::plain(alloc, name.as_slice())?,
        lane: profile.lane,
        capacity: profile.capacity,
        used: profile.used,
        bridge: profile.is_bridge,
    };
    Node::new(alloc, made)
}
