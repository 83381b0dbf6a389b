//! Steps of the machine in a run.

ghost use Rattle.std.specs.Prelude.{◌≡◌, ◌++◌, ◌≤◌, [], ◌∷◌, true, false, IfOk, OnOk, length};
ghost use Rattle.line_base.specs.declared.states.Side.TheVariants.{Exit};
ghost use Rattle.book_entry.specs.Given.{own_of};
ghost use Rattle.book_entry.specs.Short.{IsShort};
ghost use Rattle.node_core.specs.May.{may_of, may_do};
ghost use Rattle.node_core.specs.declared.act.Act.TheVariants as acts;
ghost use Rattle.node_core.specs.declared.input.Input.TheVariants as inputs;
ghost use Rattle.machine_log.specs.Texts.{lines_of};
ghost use Rattle.node_run.specs.Steps.{Takes, TakesSecond, TakesStep, MeetsSecond, HasStepped, panel_told, routed, refusing_with, message_for};

use crate::run::{Refusal, Run};
use crate::way_state::Wire;
use board_record::Sensed;
use hermes_horizontal::write_horizontal;
use hermes_vertical::VerticalMessage;
use line_base::{Memory, Moment, Side};
use line_outside::Way;
use machine_log::{acts_are_proper, write_lines};
use node_core::{Act, Input, Outputs};

impl Run {
    /// A step, where the machine can take the input, and else nothing.
    pub fn take(&mut self, input: Input<'_>, moment: Moment) -> Result<(), Memory>
        requires told { self.old.told ≡ [] }
        requires short { IsShort (own_of input) }
        ensures rules { self.new.rules ≡ self.old.rules }
        ensures takes { OnOk result
            (Takes (may_of self.old.state.node input.entry) self.old.rules moment input.entry
            self.old.state self.old.state self.new.state self.new.told) }
    {
        if self.node.may(&input).is_err() {
            return Ok(());
        }
        self.step_unasked(input, moment)
    }

    /// A step that a line of the panel asked for: its lines go to the log and to the panel.
    pub fn step_asked(
        &mut self,
        sensed: &[Sensed],
        input: Input<'_>,
        moment: Moment,
    ) -> Result<(), Memory>
        requires may { may_of self.old.state.node input ≡ may_do }
        requires told { self.old.told ≡ [] }
        requires events { length sensed.now ≤ 65535 }
        requires short { IsShort (own_of input) }
        ensures rules { self.new.rules ≡ self.old.rules }
        ensures takes { OnOk result
            (TakesStep true self.old.rules moment sensed.now input.entry self.old.state
            self.new.state self.new.told) }
    {
        let acts = self.step_silently(sensed, input, moment)?;
        self.route(acts.list())?;
        self.echo()
    }

    /// A step that no line of the panel asked for: its lines go to the log, and the panel is told
    /// its news alone.
    pub fn step_unasked(&mut self, input: Input<'_>, moment: Moment) -> Result<(), Memory>
        requires may { may_of self.old.state.node input ≡ may_do }
        requires told { self.old.told ≡ [] }
        requires short { IsShort (own_of input) }
        ensures rules { self.new.rules ≡ self.old.rules }
        ensures takes { OnOk result
            (TakesStep false self.old.rules moment [] input.entry self.old.state self.new.state
            self.new.told) }
    {
        let acts = self.step_silently(&[], input, moment)?;
        let told = acts.list();
        self.route(told)?;
        self.tell_news(told)
    }

    /// The panel is told what is news among these acts, where the drives are told and it has a
    /// connection.
    fn tell_news(&mut self, acts: &[Act]) -> Result<(), Memory>
        ensures rules { self.new.rules ≡ self.old.rules }
        ensures told { OnOk result
            (self.new
            ≡ record self.old { state = panel_told false self.old.rules acts.now self.old.state }) }
    {
        if self.panel.wire() != Wire::Stands {
            return Ok(());
        }
        let told = self.rules.panel.drives;
        self.panel
            .append_news(told, self.turn, self.rules.number, acts)
    }

    /// The machine's step and its lines. Where its messages go is for the caller.
    #[tactic(auto, using(crate::proofs::Short::alone_by))]
    pub(crate) fn step_silently(
        &mut self,
        sensed: &[Sensed],
        input: Input<'_>,
        moment: Moment,
    ) -> Result<Outputs, Memory>
        requires may { may_of self.old.state.node input ≡ may_do }
        requires told { self.old.told ≡ [] }
        requires events { length sensed.now ≤ 65535 }
        requires short { IsShort (own_of input) }
        ensures rules { self.new.rules ≡ self.old.rules }
        ensures stepped { IfOk result
            (λ acts. HasStepped self.old.rules moment sensed.now input.entry acts self.old.state
            self.new.state self.new.told) }
    {
        self.step.note(self.alloc, sensed, &input, moment)?;
        let acts = self.node.step(sensed, input, moment)?;
        acts_are_proper(acts.list());
        self.drives.obey(acts.list());
        self.write_acts(acts.list())?;
        Ok(acts)
    }

    /// The lines of a step's acts.
    fn write_acts(&mut self, acts: &[Act]) -> Result<(), Memory>
        ensures rules { self.new.rules ≡ self.old.rules }
        ensures lines { OnOk result
            (self.new
            ≡ record self.old {
              told = self.old.told
                  ++ lines_of
                  self.old.rules.panel.drives self.old.state.turn self.old.rules.number acts.now;
            }) }
    {
        let told = self.rules.panel.drives;
        write_lines(told, self.turn, self.rules.number, acts, &mut self.told)
    }

    /// Messages wait on the ways of their sides, those for the supervisor where its session
    /// stands, and a side that was closed is to end.
    fn route(&mut self, acts: &[Act]) -> Result<(), Memory>
        ensures rules { self.new.rules ≡ self.old.rules }
        ensures routed { OnOk result (self.new ≡ record self.old { state = routed acts.now self.old.state }) }
    {
        for act in acts {
            self.route_one(act)?;
        }
        Ok(())
    }

    fn route_one(&mut self, act: &Act) -> Result<(), Memory>
        ensures rules { self.new.rules ≡ self.old.rules }
        ensures routed { OnOk result
            (self.new ≡ record self.old { state = routed (act.now ∷ []) self.old.state }) }
    {
        match act {
            Act::Sends(Side::Entry, message) => self.upstream.append_message(message),
            Act::Sends(Side::Exit, message) => self.downstream.append_message(message),
            Act::Tells(told) => self.route_told(told.message()),
            Act::Closes(Side::Entry) => {
                self.upstream.set_wire(Wire::Ends);
                Ok(())
            }
            Act::Closes(Side::Exit) => {
                self.downstream.set_wire(Wire::Ends);
                Ok(())
            }
            _ => Ok(()),
        }
    }

    /// What a supervisor is told waits on its way where its session stands, and is dropped where
    /// it doesn't.
    fn route_told(&mut self, message: &VerticalMessage) -> Result<(), Memory>
        ensures rules { self.new.rules ≡ self.old.rules }
        ensures routed { OnOk result
            (self.new
            ≡ record self.old { state = routed (acts.Tells message.now ∷ []) self.old.state }) }
    {
        if !self.channel.stands() {
            return Ok(());
        }
        self.supervisory.append_told(message)
    }

    /// A second connection of the downstream neighbour: the first of the step's messages is for
    /// that, and it is refused.
    pub fn meet_second(&mut self, moment: Moment) -> Result<(), Memory>
        requires { self.old.told ≡ [] }
        ensures rules { self.new.rules ≡ self.old.rules }
        ensures meets { OnOk result
            (MeetsSecond
            (may_of self.old.state.node inputs.Second) self.old.rules moment inputs.Second
            self.old.state self.new.state self.new.told) }
    {
        if self.node.may(&Input::Second).is_err() {
            return Ok(());
        }
        self.take_second(moment)
    }

    fn take_second(&mut self, moment: Moment) -> Result<(), Memory>
        requires may { may_of self.old.state.node inputs.Second ≡ may_do }
        requires told { self.old.told ≡ [] }
        ensures rules { self.new.rules ≡ self.old.rules }
        ensures takes { OnOk result
            (TakesSecond self.old.rules moment inputs.Second self.old.state self.new.state
            self.new.told) }
    {
        let acts = self.step_silently(&[], Input::Second, moment)?;
        let told = acts.list();
        self.refuse_with(told)?;
        self.tell_news(told)
    }

    /// The first of these acts is for the second connection, the others go their ways.
    fn refuse_with(&mut self, acts: &[Act]) -> Result<(), Memory>
        ensures rules { self.new.rules ≡ self.old.rules }
        ensures refuses { OnOk result
            (self.new ≡ record self.old { state = refusing_with acts.now self.old.state }) }
    {
        let text = match acts.split_first() {
            Some((first, others)) => {
                self.route(others)?;
                self.text_of(first)?
            }
            None => Vec::new(self.alloc),
        };
        self.refusal = Some(Refusal {
            way: Way::Downstream,
            text,
        });
        Ok(())
    }

    /// The message of an act for the second connection.
    fn text_of(&self, act: &Act) -> Result<Vec<u8>, Memory>
        ensures { IfOk result (λ text. text.items ≡ message_for Exit act.now) }
    {
        let mut text = Vec::new(self.alloc);
        if let Act::Sends(Side::Exit, message) = act {
            write_horizontal(message, &mut text)?;
        }
        Ok(text)
    }
}
