//! Turn 0 of a machine that begins again: it hears which connections are gone.

ghost use Rattle.std.specs.Prelude.{◌≡◌, ◌≤◌, [], true, Ok, OnOk, IfSome};
ghost use Rattle.book_entry.specs.Given.{own_of};
ghost use Rattle.book_entry.specs.Short.{IsShort};
ghost use Rattle.node_core.specs.May.{may_of, may_do};
ghost use Rattle.node_run.specs.Gone.{HearsGone, HearsIf, StepsAlone, StepsIf, begins_again, gone_at, is_behind_listens};

use crate::place::Place;
use crate::run::Run;
use line_base::{Memory, Moment, Side};
use node_core::Input;

impl Run {
    /// Whether it is in turn 0, behind the listens.
    pub fn begins_again(&self) -> bool
        ensures { result ≡ begins_again self.now.state }
    {
        match self.ended {
            Some(_) => false,
            None => self.turn < 1 && self.place.is_behind_listens(),
        }
    }

    /// The connection that the machine had at this place before it began again is gone: one step, where
    /// there was one, and else nothing.
    pub fn hear_gone(&mut self, moment: Moment) -> Result<(), Memory>
        requires again { begins_again self.old.state ≡ true }
        requires turns { 1 ≤ self.old.rules.turns }
        requires told { self.old.told ≡ [] }
        ensures rules { self.new.rules ≡ self.old.rules }
        ensures gone { OnOk result
            (HearsGone self.old.rules moment self.old.state self.new.state self.new.told) }
    {
        let input = self.gone_here();
        self.move_on();
        self.hear_if(input, moment)
    }

    fn gone_here(&self) -> Option<Input<'static>>
        ensures input { result ≡ gone_at self.now.state.place }
        ensures short { IfSome result (λ input. IsShort (own_of input)) }
    {
        self.place.gone()
    }

    fn hear_if(&mut self, input: Option<Input<'_>>, moment: Moment) -> Result<(), Memory>
        requires told { self.old.told ≡ [] }
        requires short { IfSome input (λ input. IsShort (own_of input)) }
        ensures rules { self.new.rules ≡ self.old.rules }
        ensures hears { OnOk result
            (HearsIf input.entry self.old.rules moment
            self.old.state self.new.state self.new.told) }
    {
        match input {
            None => Ok(()),
            Some(input) => self.step_if(input, moment),
        }
    }

    /// A step whose messages go nowhere, where the machine can take the input, and else nothing.
    fn step_if(&mut self, input: Input<'_>, moment: Moment) -> Result<(), Memory>
        requires told { self.old.told ≡ [] }
        requires short { IsShort (own_of input) }
        ensures rules { self.new.rules ≡ self.old.rules }
        ensures steps { OnOk result
            (StepsIf (may_of self.old.state.node input.entry) self.old.rules moment input.entry
            self.old.state self.new.state self.new.told) }
    {
        if self.node.may(&input).is_err() {
            return Ok(());
        }
        self.step_alone(input, moment)
    }

    fn step_alone(&mut self, input: Input<'_>, moment: Moment) -> Result<(), Memory>
        requires may { may_of self.old.state.node input ≡ may_do }
        requires told { self.old.told ≡ [] }
        requires short { IsShort (own_of input) }
        ensures rules { self.new.rules ≡ self.old.rules }
        ensures steps { OnOk result
            (StepsAlone self.old.rules moment input.entry self.old.state self.new.state
            self.new.told) }
    {
        self.step_silently(&[], input, moment)?;
        Ok(())
    }
}

impl Place {
    /// Whether the listens are behind it.
    fn is_behind_listens(self) -> bool
        ensures { result ≡ is_behind_listens self }
    {
        match self {
            Place::ListenPanel
            | Place::ListenDownstream
            | Place::ListenSupervisory
            | Place::ListenConfiguration => false,
            Place::PollPanel
            | Place::PollUpstream
            | Place::PollDownstream
            | Place::PollSupervisory
            | Place::PollConfiguration
            | Place::SendPanel
            | Place::SendUpstream
            | Place::SendDownstream
            | Place::SendSupervisory
            | Place::SendConfiguration
            | Place::TurnDone => true,
        }
    }

    /// What a machine that begins again is given there.
    fn gone(self) -> Option<Input<'static>>
        ensures input { result ≡ gone_at self }
        ensures short { IfSome result (λ input. IsShort (own_of input)) }
    {
        match self {
            Place::PollUpstream => Some(Input::Notice(Side::Entry)),
            Place::PollDownstream => Some(Input::Notice(Side::Exit)),
            Place::PollSupervisory => Some(Input::Supervise(false)),
            Place::ListenPanel
            | Place::ListenDownstream
            | Place::ListenSupervisory
            | Place::ListenConfiguration
            | Place::PollPanel
            | Place::PollConfiguration
            | Place::SendPanel
            | Place::SendUpstream
            | Place::SendDownstream
            | Place::SendSupervisory
            | Place::SendConfiguration
            | Place::TurnDone => None,
        }
    }
}
