//! What the supervisor's messages do.

ghost use Rattle.std.specs.Prelude.{◌≡◌, ◌++◌, [], IfErr, IfOk, None, OnErr, OnOk, true};
ghost use Rattle.hermes_vertical.specs.Parts.{kind_of};
ghost use Rattle.line_base.specs.PlainText.{is_plain_text};
ghost use Rattle.node_core.specs.May.{may_of};
ghost use Rattle.node_core.specs.declared.input.Input.TheVariants as inputs;
ghost use Rattle.supervisory_core.specs.Row.{row, supervised_row};
ghost use Rattle.supervised_end.specs.Channel.{HearsNext};
ghost use Rattle.supervised_end.specs.Said.{notification, system_of, untaken};
ghost use Rattle.node_run.specs.Hearing.{AnswersIf, BreaksOff, Describes, DoesAction, DoesFound, DoesHear, DoesRow, DoesWord, Unsupervised, said, session_ended, with_channel, with_stands};

use crate::run::Run;
use crate::way_state::Wire;
use hermes_horizontal::Ping;
use hermes_vertical::{Vertical, VerticalKind, VerticalMessage};
use line_base::{Memory, Moment, Severity, Text};
use node_core::{Input, No};
use supervised_end::{Found, Word, notification, system_of, told_of_untaken};
use supervisory_core::{VerticalAction, unexpected};

impl Run {
    /// Does the next of the supervisor's messages.
    pub fn take_message(&mut self, moment: Moment) -> Result<(), Memory>
        requires { self.old.told ≡ [] }
        ensures rules { self.new.rules ≡ self.old.rules }
        ensures hears { OnOk result
            (DoesHear self.old.rules moment self.old.state self.new.state self.new.told) }
    {
        let found = self.find_message()?;
        self.do_found(found, moment)
    }

    /// What the bytes that came say next.
    fn find_message(&mut self) -> Result<Found, Memory>
        ensures rules { self.new.rules ≡ self.old.rules }
        ensures told { self.new.told ≡ self.old.told }
        ensures hears { IfOk result
            (λ found. HearsNext self.old.state.channel self.new.state.channel found) }
        ensures kept { IfOk result
            (λ found.
            self.new ≡ record self.old
            { state = with_channel self.new.state.channel self.old.state }) }
    {
        self.channel.next(self.alloc)
    }

    fn do_found(&mut self, found: Found, moment: Moment) -> Result<(), Memory>
        requires { self.old.told ≡ [] }
        ensures rules { self.new.rules ≡ self.old.rules }
        ensures does { OnOk result
            (DoesFound found self.old.rules moment self.old.state self.new.state self.new.told) }
    {
        match found {
            Found::Word(word) => self.do_word(word, moment),
            Found::More => Ok(()),
            Found::TooLong => self.break_off_as("message too long", moment),
        }
    }

    fn do_word(&mut self, word: Word, moment: Moment) -> Result<(), Memory>
        requires { self.old.told ≡ [] }
        ensures rules { self.new.rules ≡ self.old.rules }
        ensures does { OnOk result
            (DoesWord word self.old.rules moment self.old.state self.new.state self.new.told) }
    {
        match word {
            Word::Says(message) => self.do_body(message.body, moment),
            Word::Wrong(text) => self.break_off(text, moment),
        }
    }

    /// The session takes what a message says.
    fn do_body(&mut self, body: Vertical, moment: Moment) -> Result<(), Memory>
        requires { self.old.told ≡ [] }
        ensures rules { self.new.rules ≡ self.old.rules }
        ensures does { OnOk result
            (DoesRow (supervised_row self.old.state.channel.stands body) body self.old.rules moment
            self.old.state self.new.state self.new.told) }
    {
        match self.meet(body) {
            Ok(action) => self.do_action(action, moment),
            Err(kind) => self.break_off_as(unexpected(kind), moment),
        }
    }

    /// What the session's row says of a message, or which message has none.
    fn meet(&mut self, body: Vertical) -> Result<VerticalAction, VerticalKind>
        ensures rules { self.new.rules ≡ self.old.rules }
        ensures told { self.new.told ≡ self.old.told }
        ensures row { IfOk result
            (λ action. supervised_row self.old.state.channel.stands body
            ≡ row self.new.state.channel.stands action) }
        ensures kept { IfOk result
            (λ action.
            self.new ≡ record self.old
            { state = with_stands self.new.state.channel.stands self.old.state }) }
        ensures breach { IfErr result (λ kind. (supervised_row self.old.state.channel.stands body ≡ None)
            × (kind ≡ kind_of body)) }
        ensures unchanged { OnErr result (self.new ≡ self.old) }
    {
        self.channel.on_message(body)
    }

    fn do_action(&mut self, action: VerticalAction, moment: Moment) -> Result<(), Memory>
        requires { self.old.told ≡ [] }
        ensures rules { self.new.rules ≡ self.old.rules }
        ensures does { OnOk result
            (DoesAction action self.old.rules moment self.old.state self.new.state self.new.told) }
    {
        match action {
            VerticalAction::Describe => self.describe(moment),
            VerticalAction::Pong(id) => self.say(
                Vertical::CheckAlive {
                    ping: Some(Ping::Answer),
                    id,
                },
                moment,
            ),
            VerticalAction::Answer { query, order } => self.take_answer(query, order, moment),
            VerticalAction::Nothing => Ok(()),
        }
    }

    /// The machine describes itself, and is supervised from now on.
    fn describe(&mut self, moment: Moment) -> Result<(), Memory>
        requires { self.old.told ≡ [] }
        ensures rules { self.new.rules ≡ self.old.rules }
        ensures does { OnOk result
            (Describes self.old.rules moment self.old.state self.new.state self.new.told) }
    {
        let own = self.own_system()?;
        self.say(own, moment)?;
        self.take(Input::Supervise(true), moment)
    }

    /// How the machine describes itself.
    fn own_system(&self) -> Result<Vertical, Memory>
        ensures { IfOk result (λ body. body ≡ system_of self.now.rules.machine_id) }
    {
        system_of(self.alloc, &self.rules.machine_id)
    }

    /// The machine takes the answer to its question, or says why it doesn't.
    fn take_answer(&mut self, query: u64, order: Text, moment: Moment) -> Result<(), Memory>
        requires { self.old.told ≡ [] }
        ensures rules { self.new.rules ≡ self.old.rules }
        ensures does { OnOk result
            (AnswersIf
            (may_of self.old.state.node (inputs.Answer query order)) self.old.rules moment query
            order self.old.state self.new.state self.new.told) }
    {
        let input = Input::Answer { query, order };
        match self.may(&input) {
            Ok(()) => self.step_unasked(input, moment),
            Err(why) => self.tell_untaken(why, moment),
        }
    }

    /// Why the machine can't take an input, if it can't.
    fn may(&self, input: &Input<'_>) -> Result<(), No>
        ensures { result ≡ may_of self.now.state.node input.now }
    {
        self.node.may(input)
    }

    /// The supervisor is told why its answer isn't taken.
    fn tell_untaken(&mut self, why: No, moment: Moment) -> Result<(), Memory>
        ensures rules { self.new.rules ≡ self.old.rules }
        ensures told { self.new.told ≡ self.old.told }
        ensures said { OnOk result
            (self.new.state
            ≡ said moment (notification 0 Severity.Warning (untaken why)) self.old.state) }
    {
        let told = told_of_untaken(self.alloc, why)?;
        self.say(told, moment)
    }

    /// A message waits to be sent.
    fn say(&mut self, body: Vertical, moment: Moment) -> Result<(), Memory>
        ensures rules { self.new.rules ≡ self.old.rules }
        ensures told { self.new.told ≡ self.old.told }
        ensures said { OnOk result (self.new.state ≡ said moment body self.old.state) }
    {
        let message = VerticalMessage {
            stamp: Some(moment),
            body,
        };
        self.supervisory.append_told(&message)
    }

    /// The session is broken off with this text.
    fn break_off_as(&mut self, text: &str, moment: Moment) -> Result<(), Memory>
        requires told { self.old.told ≡ [] }
        requires plain { is_plain_text text.now ≡ true }
        ensures rules { self.new.rules ≡ self.old.rules }
        ensures breaks { OnOk result
            (BreaksOff self.old.rules moment text.now self.old.state self.new.state self.new.told) }
    {
        let text = Text::plain(self.alloc, text.as_bytes())?;
        self.break_off(text, moment)
    }

    /// The supervisor is told why the session ends, and what else came is dropped.
    fn break_off(&mut self, text: Text, moment: Moment) -> Result<(), Memory>
        requires { self.old.told ≡ [] }
        ensures rules { self.new.rules ≡ self.old.rules }
        ensures breaks { OnOk result
            (BreaksOff self.old.rules moment text self.old.state self.new.state self.new.told) }
    {
        self.say(notification(1, Severity::Fatal, text), moment)?;
        self.end_session();
        self.end_supervision(moment)
    }

    /// The way is to end, and what else came is dropped.
    fn end_session(&mut self)
        ensures { self.new ≡ record self.old { state = session_ended self.old.state } }
    {
        self.supervisory.set_wire(Wire::Ends);
        self.channel.restart();
    }

    /// A machine that was supervised is so no more.
    pub(crate) fn end_supervision(&mut self, moment: Moment) -> Result<(), Memory>
        requires { self.old.told ≡ [] }
        ensures rules { self.new.rules ≡ self.old.rules }
        ensures ends { OnOk result
            (Unsupervised self.old.rules moment self.old.state self.new.state self.new.told) }
    {
        self.take(Input::Supervise(false), moment)
    }
}
