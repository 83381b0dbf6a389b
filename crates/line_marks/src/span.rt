//! Which machines a line of the script may change.

ghost use Rattle.std.specs.Prelude.{◌≡◌, ◌≤◌, drop, length, map, take};
ghost use Rattle.line_script.specs.Ranges.{IsWithin};
ghost use Rattle.line_step.specs.State.{owned_by};
ghost use Rattle.line_marks.specs.Stepped.{first_stepped, last_stepped, owned_between};

use line_script::ScriptLine;
use node_core::Node;

/// The machines from one number to another; `first` is 0 where there is none.
#[derive(Clone, Copy, Debug, PartialEq, Eq)]
pub struct Span {
    pub first: u32,
    pub last: u32,
}

impl Span {
    /// One machine.
    pub fn one(machine: u32) -> Span
        ensures first { result.first ≡ machine }
        ensures last { result.last ≡ machine }
    {
        Span {
            first: machine,
            last: machine,
        }
    }
}

/// The machines that a line of the script may change.
pub fn stepped(line: &ScriptLine) -> Span
    requires { IsWithin line.now }
    ensures first { result.first ≡ first_stepped line.now }
    ensures last { result.last ≡ last_stepped line.now }
    ensures early { result.first ≤ 64 }
{
    match line {
        ScriptLine::Connect { machine } => Span {
            first: machine.saturating_sub(1),
            last: *machine,
        },
        ScriptLine::Insert { machine, .. } => Span::one(*machine),
        ScriptLine::Remove { machine, .. } => Span::one(*machine),
        ScriptLine::Replace { machine, .. } => Span::one(*machine),
        ScriptLine::Mark { machine, .. } => Span::one(*machine),
        ScriptLine::Sub { machine, .. } => Span::one(*machine),
        ScriptLine::Hold { machine, .. } => Span::one(*machine),
        ScriptLine::Go { machine, .. } => Span::one(*machine),
        ScriptLine::Signal { machine, .. } => Span::one(*machine),
        ScriptLine::Flow { machine, .. } => Span::one(*machine),
        ScriptLine::Notice { machine, .. } => Span::one(*machine),
        ScriptLine::Shutdown { machine } => Span::one(*machine),
        ScriptLine::Tick { machine } => Span::one(*machine),
        ScriptLine::Fault { machine, .. } => Span::one(*machine),
        ScriptLine::Sense { machine } => Span::one(*machine),
        ScriptLine::Forecast { machine } => Span::one(*machine),
        ScriptLine::Query { machine, .. } => Span::one(*machine),
        ScriptLine::Supervise { machine } => Span::one(*machine),
        ScriptLine::Ask { machine, .. } => Span::one(*machine),
        ScriptLine::Answer { machine, .. } => Span::one(*machine),
        _ => Span::one(0),
    }
}

/// Those of a span that are there.
pub fn between(machines: &[Node], span: Span) -> &[Node]
    ensures are { map owned_by result.now
        ≡ owned_between span.first span.last (map owned_by machines.now) }
    ensures few { length result.now ≤ length machines.now }
{
    if span.first == 0 {
        return &[];
    }
    let behind = from(machines, span.first as usize - 1);
    front(
        behind,
        (span.last as usize + 1).saturating_sub(span.first as usize),
    )
}

/// What follows so many machines.
fn from(machines: &[Node], count: usize) -> &[Node]
    ensures are { result.now ≡ drop count machines.now }
    ensures few { length result.now ≤ length machines.now }
{
    if machines.len() < count {
        return &[];
    }
    &machines[count..]
}

/// So many machines, or what there is.
fn front(machines: &[Node], count: usize) -> &[Node]
    ensures are { result.now ≡ take count machines.now }
    ensures few { length result.now ≤ length machines.now }
{
    if machines.len() < count {
        return machines;
    }
    &machines[..count]
}
