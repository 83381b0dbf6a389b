//! What the messages of the configuration service do.

ghost use Rattle.std.specs.Prelude.{◌≡◌, ◌==◌, IfOk, None, OnOk, true};
ghost use Rattle.line_base.specs.PlainText.{is_plain_text};
ghost use Rattle.config_service.specs.Plans.{IsReset};
ghost use Rattle.config_service.specs.declared.message.ConfigBody.TheVariants as bodies;
ghost use Rattle.node_run.specs.Configuring.{Accepts, AfterTry, DoesConfig, DoesConfigFound, DoesConfigWord, DoesPlan, HearsConfig, TriesIf, config_broken_off, config_ended, config_notice, config_said, config_text, configured_already, port_refused, settled, with_config};

use crate::channel::{ConfigFound, ConfigWord, next_config};
use crate::run::Run;
use crate::way_state::Wire;
use config_service::{ConfigBody, ConfigMessage, Plan, Settings, write_config};
use line_base::{Code, Memory, Moment, Severity, Text};
use line_outside::Opened;
use std::alloc::Global;

impl Run {
    /// Does the next of the configuration service's messages.
    pub fn take_config(&mut self, moment: Moment) -> Result<(), Memory>
        ensures rules { self.new.rules ≡ self.old.rules }
        ensures told { self.new.told ≡ self.old.told }
        ensures does { OnOk result (DoesConfig moment self.old.state self.new.state) }
    {
        let found = self.find_config()?;
        self.do_config(found, moment)
    }

    /// What the bytes that came say next.
    fn find_config(&mut self) -> Result<ConfigFound, Memory>
        ensures rules { self.new.rules ≡ self.old.rules }
        ensures told { self.new.told ≡ self.old.told }
        ensures hears { IfOk result
            (λ found. HearsConfig self.old.state.config self.new.state.config found) }
        ensures kept { IfOk result
            (λ found.
            self.new ≡ record self.old
            { state = with_config self.new.state.config self.old.state }) }
    {
        next_config(self.alloc, &mut self.config)
    }

    fn do_config(&mut self, found: ConfigFound, moment: Moment) -> Result<(), Memory>
        ensures rules { self.new.rules ≡ self.old.rules }
        ensures told { self.new.told ≡ self.old.told }
        ensures does { OnOk result
            (DoesConfigFound found moment self.old.state self.new.state) }
    {
        match found {
            ConfigFound::Word(word) => self.do_config_word(word, moment),
            ConfigFound::More => Ok(()),
            ConfigFound::TooLong => self.break_config_as("message too long", moment),
        }
    }

    fn do_config_word(&mut self, word: ConfigWord, moment: Moment) -> Result<(), Memory>
        ensures rules { self.new.rules ≡ self.old.rules }
        ensures told { self.new.told ≡ self.old.told }
        ensures does { OnOk result (DoesConfigWord word moment self.old.state self.new.state) }
    {
        match word {
            ConfigWord::Says(message) => {
                let plan = self.settings.plan(&message.body);
                self.do_plan(plan, moment)
            }
            ConfigWord::Wrong(text) => self.break_config(text, moment),
        }
    }

    fn do_plan(&mut self, plan: Plan, moment: Moment) -> Result<(), Memory>
        ensures rules { self.new.rules ≡ self.old.rules }
        ensures told { self.new.told ≡ self.old.told }
        ensures does { OnOk result (DoesPlan plan moment self.old.state self.new.state) }
    {
        match plan {
            Plan::Tell => self.tell_settings(moment),
            Plan::Try(settings) => self.try_settings(settings, moment),
            Plan::Nothing => Ok(()),
            Plan::Breach => self.break_config_as("unexpected CurrentConfiguration", moment),
        }
    }

    fn tell_settings(&mut self, moment: Moment) -> Result<(), Memory>
        ensures rules { self.new.rules ≡ self.old.rules }
        ensures told { self.new.told ≡ self.old.told }
        ensures tells { OnOk result
            (self.new.state
            ≡ config_said moment (bodies.Current self.old.state.settings) self.old.state) }
    {
        let settings = self.settings.settings();
        self.say_config(ConfigBody::Current(settings), moment)?;
        Ok(())
    }

    /// Takes the settings of a Set where their port is the present one, and else waits for a listen.
    fn try_settings(&mut self, settings: Settings, moment: Moment) -> Result<(), Memory>
        ensures rules { self.new.rules ≡ self.old.rules }
        ensures told { self.new.told ≡ self.old.told }
        ensures tries { OnOk result
            (TriesIf
            (settings.port == self.old.state.settings.port) moment settings self.old.state
            self.new.state) }
    {
        if settings.port == self.settings.settings().port {
            return self.accept(settings, moment);
        }
        self.tries = Some(settings);
        Ok(())
    }

    /// The answer to listening at the port of a Set: where it failed, the settings stay.
    pub fn after_try(
        &mut self,
        settings: Settings,
        opened: Opened,
        moment: Moment,
    ) -> Result<(), Memory>
        ensures rules { self.new.rules ≡ self.old.rules }
        ensures told { self.new.told ≡ self.old.told }
        ensures after { OnOk result
            (AfterTry opened moment settings self.old.state self.new.state) }
    {
        match opened {
            Opened::Done => self.accept(settings, moment),
            Opened::Failed => self.refuse_port(moment),
        }
    }

    fn refuse_port(&mut self, moment: Moment) -> Result<(), Memory>
        ensures rules { self.new.rules ≡ self.old.rules }
        ensures told { self.new.told ≡ self.old.told }
        ensures refuses { OnOk result
            (self.new.state
            ≡ config_said moment port_refused (record self.old.state { tries = None })) }
    {
        let refused = port_refused(self.alloc)?;
        self.drop_try();
        self.say_config(refused, moment)
    }

    fn drop_try(&mut self)
        ensures { self.new ≡ record self.old { state = record self.old.state { tries = None } } }
    {
        self.tries = None;
    }

    /// These are the settings from now on. They are told, and the sides whose setting changed are to
    /// be reset.
    fn accept(&mut self, settings: Settings, moment: Moment) -> Result<(), Memory>
        ensures rules { self.new.rules ≡ self.old.rules }
        ensures told { self.new.told ≡ self.old.told }
        ensures accepts { OnOk result (Accepts moment settings self.old.state self.new.state) }
    {
        self.settle(settings);
        self.say_config(ConfigBody::Current(settings), moment)
    }

    fn settle(&mut self, settings: Settings)
        ensures settled { self.new
            ≡ record self.old { state = settled settings self.new.state.resets self.old.state } }
        ensures sides { IsReset self.old.state.settings settings self.new.state.resets }
    {
        self.tries = None;
        self.resets = self.settings.accept(settings);
    }

    /// A message waits to be sent.
    fn say_config(&mut self, body: ConfigBody, moment: Moment) -> Result<(), Memory>
        ensures rules { self.new.rules ≡ self.old.rules }
        ensures told { self.new.told ≡ self.old.told }
        ensures said { OnOk result (self.new.state ≡ config_said moment body self.old.state) }
    {
        let message = ConfigMessage {
            stamp: Some(moment),
            body,
        };
        self.configuration.append_config(&message)
    }

    /// The connection is broken off with this text.
    fn break_config_as(&mut self, text: &str, moment: Moment) -> Result<(), Memory>
        requires { is_plain_text text.now ≡ true }
        ensures rules { self.new.rules ≡ self.old.rules }
        ensures told { self.new.told ≡ self.old.told }
        ensures breaks { OnOk result
            (self.new.state ≡ config_broken_off moment text.now self.old.state) }
    {
        let text = Text::plain(self.alloc, text.as_bytes())?;
        self.break_config(text, moment)
    }

    /// Who asked is told why the connection ends, and what else came is dropped.
    fn break_config(&mut self, text: Text, moment: Moment) -> Result<(), Memory>
        ensures rules { self.new.rules ≡ self.old.rules }
        ensures told { self.new.told ≡ self.old.told }
        ensures breaks { OnOk result
            (self.new.state ≡ config_broken_off moment text self.old.state) }
    {
        self.say_config(config_notice(1, Severity::Fatal, text), moment)?;
        self.end_config();
        Ok(())
    }

    /// The way is to end, and what else came is dropped.
    fn end_config(&mut self)
        ensures { self.new ≡ record self.old { state = config_ended self.old.state } }
    {
        self.configuration.set_wire(Wire::Ends);
        self.config.restart();
    }
}

fn config_notice(number: u32, severity: Severity, text: Text) -> ConfigBody
    ensures { result ≡ config_notice number severity text }
{
    ConfigBody::Notification {
        code: Code { number },
        severity,
        text,
    }
}

fn port_refused(alloc: Global) -> Result<ConfigBody, Memory>
    ensures { IfOk result (λ body. body ≡ port_refused) }
{
    let text = Text::plain(alloc, b"port refused")?;
    Ok(config_notice(4, Severity::Error, text))
}

fn configured_already(alloc: Global) -> Result<ConfigBody, Memory>
    ensures { IfOk result (λ body. body ≡ configured_already) }
{
    let text = Text::plain(alloc, b"already connected")?;
    Ok(config_notice(2, Severity::Error, text))
}

/// The text for a second connection.
pub fn refusal_of_second(alloc: Global, moment: Moment) -> Result<Vec<u8>, Memory>
    ensures { IfOk result (λ text. text.items ≡ config_text moment configured_already) }
{
    let body = configured_already(alloc)?;
    config_text(alloc, body, moment)
}

/// The text of a message of this moment.
fn config_text(alloc: Global, body: ConfigBody, moment: Moment) -> Result<Vec<u8>, Memory>
    ensures { IfOk result (λ text. text.items ≡ config_text moment body) }
{
    let message = ConfigMessage {
        stamp: Some(moment),
        body,
    };
    let mut to = Vec::new(alloc);
    write_config(&message, &mut to)?;
    Ok(to)
}
