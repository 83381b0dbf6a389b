//! What a line of a script names, and whether it is there.

ghost use Rattle.std.specs.Prelude.{◌≡◌, true};
ghost use Rattle.law_lanes.specs.Reasons.{is_named};
ghost use Rattle.line_script.specs.Ranges.{IsWithin};
ghost use Rattle.line_step.specs.Requests.{request_of};
ghost use Rattle.line_machines.specs.Given.{is_of_lane};
ghost use Rattle.line_engine.specs.Named.{names_gap, names_machine};

use line_machines::State;
use line_marks::stepped;
use line_report::Reason;
use line_script::ScriptLine;
use line_world::MoveNo;

/// What a line of one lane names is there: `NoSuchMachine`, `NoGap`.
pub fn may_name(state: &State, line: &ScriptLine) -> Result<(), Reason>
    requires own { is_of_lane line.now ≡ true }
    requires within { IsWithin line.now }
    ensures { result ≡ is_named (request_of line.now) state.now }
{
    let gap = named_gap(line);
    if gap != 0 && !state.has_link(gap) {
        return Err(Reason::Move(MoveNo::NoGap));
    }
    if state.machines().len() < named_machine(line) as usize {
        return Err(Reason::NoSuchMachine);
    }
    Ok(())
}

/// The machine that a line names; 0 where it names none.
fn named_machine(line: &ScriptLine) -> u32
    requires { IsWithin line.now }
    ensures { result ≡ names_machine line.now }
{
    match line {
        ScriptLine::Spoil { machine, .. } => *machine,
        ScriptLine::Lie { machine, .. } => *machine,
        ScriptLine::Unseen { machine, .. } => *machine,
        _ => stepped(line).last,
    }
}

/// The gap that a line names; 0 where it names none.
fn named_gap(line: &ScriptLine) -> u32
    ensures { result ≡ names_gap line.now }
{
    match line {
        ScriptLine::Cut { gap } => *gap,
        ScriptLine::Begin { gap } => *gap,
        ScriptLine::Left { gap } => *gap,
        ScriptLine::Enter { gap } => *gap,
        ScriptLine::Back { gap } => *gap,
        ScriptLine::HandIn { gap } => *gap,
        ScriptLine::Take { gap } => *gap,
        _ => 0,
    }
}
