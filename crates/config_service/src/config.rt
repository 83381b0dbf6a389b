ghost use Rattle.std.specs.Prelude.{◌≡◌};
ghost use Rattle.config_service.specs.Plans.{IsReset, plan_of};

use crate::message::{ConfigBody, Settings};
use std::marker::Model;

/// The settings of a machine, as the configuration service knows them.
#[derive(Clone, Copy, Debug, PartialEq, Eq)]
pub struct Config {
    settings: Settings,
}

impl Model for Config {
    ghost use Rattle.config_service.specs.declared.message.Settings.{Settings};

    ghost Value = { Settings };

    ghost view = { λ config. config.settings };

    ghost inverse = { λ settings. record { settings = settings } };
}

/// What a message asks of a machine.
#[derive(Clone, Copy, Debug, PartialEq, Eq)]
pub enum Plan {
    /// To tell its settings.
    Tell,
    /// To try these settings.
    Try(Settings),
    Nothing,
    /// It is a message that no machine may be sent.
    Breach,
}

/// Which sides are reset.
#[derive(Clone, Copy, Debug, PartialEq, Eq)]
pub struct Resets {
    pub upstream: bool,
    pub downstream: bool,
}

impl Config {
    /// The settings of a machine that begins.
    pub fn new(settings: Settings) -> Config
        ensures { result ≡ settings }
    {
        Config { settings }
    }

    /// The settings as they are.
    pub fn settings(&self) -> Settings
        ensures { result ≡ self.now }
    {
        self.settings
    }

    /// What a message asks of the machine: Get, that it tell its settings; Set, that it try others;
    /// Notification and a message of an unknown name, nothing. Current is a breach.
    pub fn plan(&self, body: &ConfigBody) -> Plan
        ensures { result ≡ plan_of body.now }
    {
        match body {
            ConfigBody::Get => Plan::Tell,
            ConfigBody::Set(settings) => Plan::Try(*settings),
            ConfigBody::Notification { .. } | ConfigBody::Other(_) => Plan::Nothing,
            ConfigBody::Current(_) => Plan::Breach,
        }
    }

    /// Takes these settings, and says which sides are to be reset: those whose setting changed.
    pub fn accept(&mut self, settings: Settings) -> Resets
        ensures settings { self.new ≡ settings }
        ensures resets { IsReset self.old settings result }
    {
        let before = self.settings;
        self.settings = settings;
        Resets {
            upstream: before.upstream != settings.upstream,
            downstream: before.port != settings.port,
        }
    }
}
