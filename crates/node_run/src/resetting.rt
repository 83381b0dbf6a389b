//! The reset of a side whose setting changed.

ghost use Rattle.std.specs.Prelude.{◌≡◌, [], false, IfOk, OnOk};
ghost use Rattle.line_base.specs.declared.states.Side.TheVariants.{Entry, Exit};
ghost use Rattle.hermes_horizontal.specs.Canonical.{canonical};
ghost use Rattle.node_core.specs.May.{may_of, may_do};
ghost use Rattle.node_core.specs.declared.input.Input.TheVariants as inputs;
ghost use Rattle.node_run.specs.Resetting.{ResetsSide, leaving, reset_text};
ghost use Rattle.node_run.specs.Steps.{TakesStep};

use crate::run::Run;
use crate::way_state::Wire;
use hermes_horizontal::{Horizontal, Message, Said};
use line_base::{Code, Memory, Moment, Severity, Side, Text};
use node_core::Input;
use std::alloc::Global;

impl Run {
    /// Resets a side. Where it has a connection, the neighbour is told so, the way is to end, and the
    /// machine makes the step with Notice.
    pub fn reset(&mut self, side: Side, moment: Moment) -> Result<(), Memory>
        requires { self.old.told ≡ [] }
        ensures rules { self.new.rules ≡ self.old.rules }
        ensures resets { OnOk result
            (ResetsSide self.old.rules moment side self.old.state self.new.state self.new.told) }
    {
        match side {
            Side::Entry => self.reset_entry(moment),
            Side::Exit => self.reset_exit(moment),
        }
    }

    fn reset_entry(&mut self, moment: Moment) -> Result<(), Memory>
        requires { self.old.told ≡ [] }
        ensures rules { self.new.rules ≡ self.old.rules }
        ensures resets { OnOk result
            (ResetsSide self.old.rules moment Entry self.old.state self.new.state self.new.told) }
    {
        self.resets.upstream = false;
        if self.node.may(&Input::Notice(Side::Entry)).is_err() {
            return Ok(());
        }
        self.leave_upstream(moment)
    }

    fn reset_exit(&mut self, moment: Moment) -> Result<(), Memory>
        requires { self.old.told ≡ [] }
        ensures rules { self.new.rules ≡ self.old.rules }
        ensures resets { OnOk result
            (ResetsSide self.old.rules moment Exit self.old.state self.new.state self.new.told) }
    {
        self.resets.downstream = false;
        if self.node.may(&Input::Notice(Side::Exit)).is_err() {
            return Ok(());
        }
        self.leave_downstream(moment)
    }

    /// The upstream neighbour is told, its way is to end, and the machine hears of it.
    fn leave_upstream(&mut self, moment: Moment) -> Result<(), Memory>
        requires may { may_of self.old.state.node (inputs.Notice Entry) ≡ may_do }
        requires told { self.old.told ≡ [] }
        ensures rules { self.new.rules ≡ self.old.rules }
        ensures takes { OnOk result
            (TakesStep false self.old.rules moment [] (inputs.Notice Entry)
            (leaving moment Entry self.old.state) self.new.state self.new.told) }
    {
        self.tell_upstream(moment)?;
        self.step_unasked(Input::Notice(Side::Entry), moment)
    }

    fn leave_downstream(&mut self, moment: Moment) -> Result<(), Memory>
        requires may { may_of self.old.state.node (inputs.Notice Exit) ≡ may_do }
        requires told { self.old.told ≡ [] }
        ensures rules { self.new.rules ≡ self.old.rules }
        ensures takes { OnOk result
            (TakesStep false self.old.rules moment [] (inputs.Notice Exit)
            (leaving moment Exit self.old.state) self.new.state self.new.told) }
    {
        self.tell_downstream(moment)?;
        self.step_unasked(Input::Notice(Side::Exit), moment)
    }

    fn tell_upstream(&mut self, moment: Moment) -> Result<(), Memory>
        ensures rules { self.new.rules ≡ self.old.rules }
        ensures told { self.new.told ≡ self.old.told }
        ensures node { self.new.state.node ≡ self.old.state.node }
        ensures leaves { OnOk result
            (self.new ≡ record self.old { state = leaving moment Entry self.old.state }) }
    {
        let message = reset_message(self.alloc, moment)?;
        self.upstream.set_wire(Wire::Ends);
        self.upstream.append_message(&message)?;
        Ok(())
    }

    fn tell_downstream(&mut self, moment: Moment) -> Result<(), Memory>
        ensures rules { self.new.rules ≡ self.old.rules }
        ensures told { self.new.told ≡ self.old.told }
        ensures node { self.new.state.node ≡ self.old.state.node }
        ensures leaves { OnOk result
            (self.new ≡ record self.old { state = leaving moment Exit self.old.state }) }
    {
        let message = reset_message(self.alloc, moment)?;
        self.downstream.set_wire(Wire::Ends);
        self.downstream.append_message(&message)?;
        Ok(())
    }
}

/// What the neighbour of a side that is reset is told.
fn reset_message(alloc: Global, moment: Moment) -> Result<Message, Memory>
    ensures { IfOk result (λ message. canonical message ≡ reset_text moment) }
{
    let text = Text::plain(alloc, b"configuration changed")?;
    let body = Said::new(
        alloc,
        Horizontal::Notification {
            code: Code { number: 3 },
            severity: Severity::Info,
            text,
        },
    )?;
    Ok(Message {
        stamp: Some(moment),
        body,
    })
}
