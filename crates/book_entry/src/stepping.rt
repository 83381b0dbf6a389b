ghost use Rattle.std.specs.Prelude.{◌≡◌, false, IfOk};
ghost use Rattle.node_core.specs.May.{may_do, may_of};
ghost use Rattle.book_entry.specs.Given.{IsOfOneLane, own_of};
ghost use Rattle.book_entry.specs.Steps.{StepsEntry, StepsOwn};
ghost use Rattle.book_entry.specs.declared.entry.OwnInput.TheVariants as own;

use crate::{Entry, OwnBytes, OwnInput};
use board_record::Sensed;
use line_base::{Moment, Side};
use node_core::{Input, Node, Outputs};

/// Why a machine doesn't make the step of an entry.
#[derive(Clone, Copy, Debug, PartialEq, Eq)]
pub enum StepError {
    /// There is a reason against its input.
    NotPossible,
    /// Memory was wanting. The machine is spent.
    Memory,
}

/// Makes the step that an entry keeps, and answers its acts.
///
/// `NotPossible` where the machine may not be given its input then, and nothing is done; `Memory`
/// where it was wanting in the step.
pub fn step_entry(node: &mut Node, entry: Entry) -> Result<Outputs, StepError>
    ensures steps { StepsEntry node.old entry node.new result }
    ensures awake { IfOk result (λ acts. node.new.spent ≡ false) }
{
    let Entry {
        sensed,
        input,
        moment,
    } = entry;
    step_own(node, sensed.list(), input, moment)
}

fn step_own(
    node: &mut Node,
    sensed: &[Sensed],
    input: OwnInput,
    moment: Moment,
) -> Result<Outputs, StepError>
    ensures steps { StepsOwn node.old sensed.now input moment node.new result }
    ensures awake { IfOk result (λ acts. node.new.spent ≡ false) }
{
    match input {
        OwnInput::Nothing => step_lent(node, sensed, Input::Nothing, moment),
        OwnInput::Connect => step_lent(node, sensed, Input::Connect, moment),
        OwnInput::Accepted => step_lent(node, sensed, Input::Accepted, moment),
        OwnInput::Second => step_lent(node, sensed, Input::Second, moment),
        OwnInput::Bytes(side, bytes) => step_bytes(node, sensed, side, &bytes, moment),
        OwnInput::Notice(side) => step_lent(node, sensed, Input::Notice(side), moment),
        OwnInput::Tick => step_lent(node, sensed, Input::Tick, moment),
        OwnInput::Shutdown => step_lent(node, sensed, Input::Shutdown, moment),
        OwnInput::Fault(side) => step_lent(node, sensed, Input::Fault(side), moment),
        OwnInput::Will(side, on) => step_lent(node, sensed, Input::Will(side, on), moment),
        OwnInput::Level(line, on) => step_lent(node, sensed, Input::Level(line, on), moment),
        OwnInput::Insert(barcode) => step_lent(node, sensed, Input::Insert(barcode), moment),
        OwnInput::Remove(id) => step_lent(node, sensed, Input::Remove(id), moment),
        OwnInput::Replace(id) => step_lent(node, sensed, Input::Replace(id), moment),
        OwnInput::Mark(id, quality) => step_lent(node, sensed, Input::Mark(id, quality), moment),
        OwnInput::Forecast => step_lent(node, sensed, Input::Forecast, moment),
        OwnInput::Query(barcode) => step_lent(node, sensed, Input::Query(barcode), moment),
        OwnInput::Supervise(on) => step_lent(node, sensed, Input::Supervise(on), moment),
        OwnInput::Ask(question) => step_lent(node, sensed, Input::Ask(question), moment),
        OwnInput::Answer { query, order } => {
            step_lent(node, sensed, Input::Answer { query, order }, moment)
        }
        OwnInput::Sub { id, pos, barcode } => {
            step_lent(node, sensed, Input::Sub { id, pos, barcode }, moment)
        }
    }
}

fn step_bytes(
    node: &mut Node,
    sensed: &[Sensed],
    side: Side,
    bytes: &OwnBytes,
    moment: Moment,
) -> Result<Outputs, StepError>
    ensures steps { StepsOwn node.old sensed.now (own.Bytes side bytes.now) moment node.new result }
    ensures awake { IfOk result (λ acts. node.new.spent ≡ false) }
{
    step_lent(node, sensed, Input::Bytes(side, bytes.bytes()), moment)
}

fn step_lent(
    node: &mut Node,
    sensed: &[Sensed],
    input: Input<'_>,
    moment: Moment,
) -> Result<Outputs, StepError>
    requires alone { IsOfOneLane input }
    ensures steps { StepsOwn node.old sensed.now (own_of input.entry) moment node.new result }
    ensures awake { IfOk result (λ acts. node.new.spent ≡ false) }
{
    match node.may(&input) {
        Ok(()) => step_allowed(node, sensed, input, moment),
        Err(_) => Err(StepError::NotPossible),
    }
}

fn step_allowed(
    node: &mut Node,
    sensed: &[Sensed],
    input: Input<'_>,
    moment: Moment,
) -> Result<Outputs, StepError>
    requires { may_of node.old input ≡ may_do }
    ensures steps { StepsOwn node.old sensed.now (own_of input.entry) moment node.new result }
    ensures awake { IfOk result (λ acts. node.new.spent ≡ false) }
{
    match node.step(sensed, input, moment) {
        Ok(acts) => return Ok(acts),
        Err(_) => return Err(StepError::Memory),
    }
}
