//! What comes of a supervisor.

ghost use Rattle.std.specs.Prelude.{◌≡◌, ◌≤◌, [], true, false, IsErr, IfErr, IfOk, None, OnErr, OnOk, length};
ghost use Rattle.line_base.specs.PlainText.{is_plain_text};
ghost use Rattle.hermes_vertical.specs.Parts.{kind_of};
ghost use Rattle.supervisory_core.specs.Row.{row, supervised_row};
ghost use Rattle.supervised_end.specs.Channel.{HearsNext};
ghost use Rattle.supervised_end.specs.Said.{notification, system_of, untaken};
ghost use Rattle.node_core.specs.May.{may_of};
ghost use Rattle.node_core.specs.declared.input.Input.TheVariants as inputs;
ghost use Rattle.machine_port.specs.Supervisor.{AnswersIf, BreaksOff, Describes, DoesAction, DoesFound, DoesHear, DoesRow, DoesWord, HasLeft, Takes, Unsupervised, heard, refused_second, said, sent_to_supervisor, session_ended, unstepped, with_channel, with_stands};

use crate::port::Port;
use crate::way::Outgoing;
use hermes_horizontal::Ping;
use hermes_vertical::{Vertical, VerticalKind, VerticalMessage};
use line_base::{Memory, Moment, Severity, Text};
use node_core::{Input, No, Outputs};
use supervised_end::{Found, Word, notification, refusal_of_second, system_of, told_of_untaken};
use supervisory_core::{VerticalAction, unexpected};

impl Port {
    /// The way to the supervisor: what waits there, and whether its connection is to be closed.
    pub fn supervisor(&self) -> &Outgoing
        ensures { result.now ≡ self.now.supervisor }
    {
        &self.supervisor
    }

    /// Whether bytes of the supervisor are being heard: then the next of its messages can be done.
    pub fn hears_supervisor(&self) -> bool
        ensures { result ≡ self.now.channel.hears }
    {
        self.channel.hears()
    }

    /// So many bytes from the front of what waits for the supervisor were sent: all, where there are
    /// fewer.
    pub fn sent_to_supervisor(&mut self, count: usize)
        ensures { self.new ≡ sent_to_supervisor count self.old }
    {
        self.supervisor.take_front(count);
    }

    /// Bytes of the supervisor came: they are heard message by message. Where its connection is to
    /// be closed they are dropped.
    ///
    /// `Memory` where there is none; the port is spent then.
    pub fn hear_supervisor(&mut self, bytes: &[u8]) -> Result<(), Memory>
        requires { length bytes.now ≤ 4096 }
        ensures spent { self.old.spent ≡ true → IsErr result }
        ensures still { self.old.spent ≡ true → self.new ≡ self.old }
        ensures lost { OnErr result (self.new.spent ≡ true) }
        ensures counted { self.new.made ≡ self.old.made }
        ensures heard { OnOk result
            (self.new ≡ heard self.old.supervisor.closes bytes.now self.old) }
    {
        if self.spent {
            return Err(Memory);
        }
        if self.supervisor.closes() {
            return Ok(());
        }
        match self.channel.hear(bytes) {
            Ok(()) => Ok(()),
            Err(Memory) => {
                self.spent = true;
                Err(Memory)
            }
        }
    }

    /// Does the next of the supervisor's messages, of the bytes that came: the machine answers, makes
    /// a step, or neither, or breaks off. Where it makes no step there are no last acts.
    ///
    /// `Memory` where there is none; the port is spent then.
    pub fn take_message(&mut self, moment: Moment) -> Result<(), Memory>
        ensures spent { self.old.spent ≡ true → IsErr result }
        ensures still { self.old.spent ≡ true → self.new ≡ self.old }
        ensures lost { OnErr result (self.new.spent ≡ true) }
        ensures counted { self.new.made ≡ self.old.made }
        ensures hears { OnOk result (DoesHear moment (unstepped self.old) self.new) }
    {
        if self.spent {
            return Err(Memory);
        }
        self.forget();
        match self.do_message(moment) {
            Ok(()) => Ok(()),
            Err(Memory) => {
                self.spent = true;
                Err(Memory)
            }
        }
    }

    /// The supervisor's connection is closed, by whomever: what waits there and what came is dropped,
    /// and a machine that was supervised makes a step and is so no more; else there are no last acts.
    ///
    /// `Memory` where there is none; the port is spent then.
    pub fn close_supervisor(&mut self, moment: Moment) -> Result<(), Memory>
        ensures spent { self.old.spent ≡ true → IsErr result }
        ensures still { self.old.spent ≡ true → self.new ≡ self.old }
        ensures lost { OnErr result (self.new.spent ≡ true) }
        ensures counted { self.new.made ≡ self.old.made }
        ensures left { OnOk result (HasLeft moment self.old self.new) }
    {
        if self.spent {
            return Err(Memory);
        }
        self.forget();
        self.supervisor.rest();
        self.channel.restart();
        self.end_supervision(moment)
    }

    /// A second connection to the supervisor was accepted: a text for it waits, and it is to be closed
    /// behind that.
    ///
    /// `Memory` where there is none; nothing changes then.
    pub fn refuse_supervisor(&mut self, moment: Moment) -> Result<(), Memory>
        ensures stays { OnErr result (self.new ≡ self.old) }
        ensures refused { OnOk result (self.new ≡ refused_second moment self.old) }
    {
        let text = refusal_of_second(self.alloc, moment)?;
        self.refusal = text;
        Ok(())
    }

    /// What was done last is done no more.
    fn forget(&mut self)
        ensures { self.new ≡ unstepped self.old }
    {
        self.last = Outputs::new(self.alloc);
    }

    fn do_message(&mut self, moment: Moment) -> Result<(), Memory>
        requires { self.old.spent ≡ false }
        ensures counted { self.new.made ≡ self.old.made }
        ensures hears { OnOk result (DoesHear moment self.old self.new) }
    {
        let found = self.find_message()?;
        self.do_found(found, moment)
    }

    /// What the bytes that came say next.
    fn find_message(&mut self) -> Result<Found, Memory>
        ensures counted { self.new.made ≡ self.old.made }
        ensures hears { IfOk result
            (λ found. HearsNext self.old.channel self.new.channel found) }
        ensures kept { IfOk result
            (λ found. self.new ≡ with_channel self.new.channel self.old) }
    {
        self.channel.next(self.alloc)
    }

    fn do_found(&mut self, found: Found, moment: Moment) -> Result<(), Memory>
        requires { self.old.spent ≡ false }
        ensures counted { self.new.made ≡ self.old.made }
        ensures does { OnOk result (DoesFound found moment self.old self.new) }
    {
        match found {
            Found::Word(word) => self.do_word(word, moment),
            Found::More => Ok(()),
            Found::TooLong => self.break_off_as("message too long", moment),
        }
    }

    fn do_word(&mut self, word: Word, moment: Moment) -> Result<(), Memory>
        requires { self.old.spent ≡ false }
        ensures counted { self.new.made ≡ self.old.made }
        ensures does { OnOk result (DoesWord word moment self.old self.new) }
    {
        match word {
            Word::Says(message) => self.do_body(message.body, moment),
            Word::Wrong(text) => self.break_off(text, moment),
        }
    }

    /// The session takes what a message says.
    fn do_body(&mut self, body: Vertical, moment: Moment) -> Result<(), Memory>
        requires { self.old.spent ≡ false }
        ensures counted { self.new.made ≡ self.old.made }
        ensures does { OnOk result
            (DoesRow (supervised_row self.old.channel.stands body) body moment self.old
            self.new) }
    {
        match self.meet(body) {
            Ok(action) => self.do_action(action, moment),
            Err(kind) => self.break_off_as(unexpected(kind), moment),
        }
    }

    /// What the session's row says of a message, or which message has none.
    fn meet(&mut self, body: Vertical) -> Result<VerticalAction, VerticalKind>
        ensures row { IfOk result
            (λ action. supervised_row self.old.channel.stands body
            ≡ row self.new.channel.stands action) }
        ensures kept { IfOk result
            (λ action. self.new ≡ with_stands self.new.channel.stands self.old) }
        ensures breach { IfErr result (λ kind. (supervised_row self.old.channel.stands body ≡ None)
            × (kind ≡ kind_of body)) }
        ensures unchanged { OnErr result (self.new ≡ self.old) }
    {
        self.channel.on_message(body)
    }

    fn do_action(&mut self, action: VerticalAction, moment: Moment) -> Result<(), Memory>
        requires { self.old.spent ≡ false }
        ensures counted { self.new.made ≡ self.old.made }
        ensures does { OnOk result (DoesAction action moment self.old self.new) }
    {
        match action {
            VerticalAction::Describe => self.describe(moment),
            VerticalAction::Pong(id) => self.say(
                Vertical::CheckAlive {
                    ping: Some(Ping::Answer),
                    id,
                },
                moment,
            ),
            VerticalAction::Answer { query, order } => self.take_answer(query, order, moment),
            VerticalAction::Nothing => Ok(()),
        }
    }

    /// The machine describes itself, and is supervised from now on.
    fn describe(&mut self, moment: Moment) -> Result<(), Memory>
        requires { self.old.spent ≡ false }
        ensures counted { self.new.made ≡ self.old.made }
        ensures does { OnOk result (Describes moment self.old self.new) }
    {
        let own = self.own_system()?;
        self.say(own, moment)?;
        self.supervise(true, moment)
    }

    /// How the machine describes itself.
    fn own_system(&self) -> Result<Vertical, Memory>
        ensures { IfOk result (λ body. body ≡ system_of self.now.name) }
    {
        system_of(self.alloc, &self.name)
    }

    /// The machine takes the answer to its question, or says why it doesn't.
    fn take_answer(&mut self, query: u64, order: Text, moment: Moment) -> Result<(), Memory>
        requires { self.old.spent ≡ false }
        ensures counted { self.new.made ≡ self.old.made }
        ensures does { OnOk result
            (AnswersIf
            (may_of self.old.node (inputs.Answer query order)) moment query order self.old
            self.new) }
    {
        let input = Input::Answer { query, order };
        match self.may(&input) {
            Ok(()) => self.take(&[], input, moment),
            Err(why) => self.tell_untaken(why, moment),
        }
    }

    /// Why the machine can't take an input, if it can't.
    fn may(&self, input: &Input<'_>) -> Result<(), No>
        ensures { result ≡ may_of self.now.node input.now }
    {
        self.node.may(input)
    }

    /// The machine is supervised from now on, or is so no more: a step, where that is news to it.
    fn supervise(&mut self, on: bool, moment: Moment) -> Result<(), Memory>
        requires { self.old.spent ≡ false }
        ensures counted { self.new.made ≡ self.old.made }
        ensures lost { OnErr result (self.new.spent ≡ true) }
        ensures takes { OnOk result
            (Takes
            (may_of self.old.node (inputs.Supervise on)) (inputs.Supervise on) moment self.old
            self.new) }
    {
        let input = Input::Supervise(on);
        if self.may(&input).is_err() {
            return Ok(());
        }
        self.take(&[], input, moment)
    }

    /// The supervisor is told why its answer isn't taken.
    fn tell_untaken(&mut self, why: No, moment: Moment) -> Result<(), Memory>
        ensures counted { self.new.made ≡ self.old.made }
        ensures said { OnOk result
            (self.new ≡ said moment (notification 0 Severity.Warning (untaken why)) self.old) }
    {
        let told = told_of_untaken(self.alloc, why)?;
        self.say(told, moment)
    }

    /// A message waits to be sent.
    fn say(&mut self, body: Vertical, moment: Moment) -> Result<(), Memory>
        ensures counted { self.new.made ≡ self.old.made }
        ensures said { OnOk result (self.new ≡ said moment body self.old) }
    {
        let message = VerticalMessage {
            stamp: Some(moment),
            body,
        };
        self.supervisor.say(&message)
    }

    /// The session is broken off with this text.
    fn break_off_as(&mut self, text: &str, moment: Moment) -> Result<(), Memory>
        requires unspent { self.old.spent ≡ false }
        requires plain { is_plain_text text.now ≡ true }
        ensures counted { self.new.made ≡ self.old.made }
        ensures breaks { OnOk result (BreaksOff moment text.now self.old self.new) }
    {
        let text = Text::plain(self.alloc, text.as_bytes())?;
        self.break_off(text, moment)
    }

    /// The supervisor is told why the session ends, and what else came is dropped.
    fn break_off(&mut self, text: Text, moment: Moment) -> Result<(), Memory>
        requires { self.old.spent ≡ false }
        ensures counted { self.new.made ≡ self.old.made }
        ensures breaks { OnOk result (BreaksOff moment text self.old self.new) }
    {
        self.say(notification(1, Severity::Fatal, text), moment)?;
        self.end_session();
        self.end_supervision(moment)
    }

    /// Its connection is to be closed, and what else came is dropped.
    fn end_session(&mut self)
        ensures { self.new ≡ session_ended self.old }
    {
        self.supervisor.end();
        self.channel.restart();
    }

    /// A machine that was supervised is so no more.
    fn end_supervision(&mut self, moment: Moment) -> Result<(), Memory>
        requires { self.old.spent ≡ false }
        ensures counted { self.new.made ≡ self.old.made }
        ensures lost { OnErr result (self.new.spent ≡ true) }
        ensures ends { OnOk result (Unsupervised moment self.old self.new) }
    {
        self.supervise(false, moment)
    }
}
