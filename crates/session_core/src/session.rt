ghost use Rattle.std.specs.Prelude.{◌≡◌, ◌≢◌};
ghost use Rattle.session_core.specs.End.{at_rest, no_features, in_state, taken, stands, raised, is_given_up};
ghost use Rattle.session_core.specs.Acts.{nothing};
ghost use Rattle.session_core.specs.Input.{opened, second, tick, shutdown, closed};
ghost use Rattle.session_core.specs.Row.{session_row, row};

use crate::actions::{Action, Actions, Tell};
use crate::state::SessionState;
use hermes_horizontal::Features;
use line_base::Role;
use std::marker::Model;

/// The most silent ticks that are counted.
const MOST_SILENT: u8 = 5;

/// The silent ticks after which the peer is asked whether it is alive.
const SILENT_AT_PING: u8 = 2;

/// One end of a session.
///
/// It is seen as its part, how far its connection is, how many ticks in a row were silent, how
/// many pings were sent on this connection, and the features that the peer listed.
#[derive(Debug, PartialEq, Eq, Drop)]
pub struct Session {
    role: Role,
    state: SessionState,
    silent: u8,
    pings: u64,
    peer: Features,
}

impl Model for Session {
    ghost use Rattle.session_core.specs.End.{SessionEnd};

    ghost Value = { SessionEnd };

    ghost view = { λ s. record {
      role = s.role;
      state = s.state;
      silent = s.silent;
      pings = s.pings;
      peer = s.peer;
    } };

    ghost inverse = { λ s. record { role = s.role; state = s.state; silent = s.silent; pings = s.pings; peer = s.peer } };
}

impl Session {
    /// An end without a connection.
    pub fn new(role: Role) -> Session
        ensures { result ≡ at_rest role }
    {
        Session {
            role,
            state: SessionState::NotConnected,
            silent: 0,
            pings: 0,
            peer: no_features(),
        }
    }

    /// Its part.
    pub fn role(&self) -> Role
        ensures { result ≡ self.now.role }
    {
        self.role
    }

    /// How far the connection is.
    pub fn state(&self) -> SessionState
        ensures { result ≡ self.now.state }
    {
        self.state
    }

    /// The features that the peer listed as it described itself; none before, and none without a
    /// connection.
    pub fn peer(&self) -> Features
        ensures { result ≡ self.now.peer }
    {
        self.peer
    }

    /// A connection was made.
    pub fn on_open(&mut self) -> Actions
        requires { self.old.state ≡ SessionState.NotConnected }
        ensures { session_row self.old opened ≡ row self.new result }
    {
        self.restart(SessionState::Handshake);
        match self.role {
            Role::Downstream => Actions::one(Action::SendService),
            Role::Upstream => Actions::nothing(),
        }
    }

    /// A tick of the machine's clock: it raises the count of silent ticks, asks a silent peer for
    /// a sign of life, and gives one up that stays silent.
    pub fn on_tick(&mut self) -> Actions
        requires { self.old.state ≢ SessionState.NotConnected }
        ensures { session_row self.old tick ≡ row self.new result }
    {
        let silent = raised(self.silent);
        if is_given_up(self.state, silent, self.peer) {
            self.restart(SessionState::NotConnected);
            return Actions::one(Action::Close);
        }
        self.silent = silent;
        if silent == SILENT_AT_PING {
            self.pings = self.pings.saturating_add(1);
            return Actions::one(Action::Ping(self.pings));
        }
        Actions::nothing()
    }

    /// The machine shuts down, and the connection is closed.
    pub fn on_shutdown(&mut self) -> Actions
        requires { self.old.state ≢ SessionState.NotConnected }
        ensures { session_row self.old shutdown ≡ row self.new result }
    {
        self.restart(SessionState::NotConnected);
        Actions::two(Action::Tell(Tell::Shutdown), Action::Close)
    }

    /// The connection is closed: by the peer, by a cut, or by the machine after a breach.
    pub fn on_closed(&mut self)
        requires { self.old.state ≢ SessionState.NotConnected }
        ensures { session_row self.old closed ≡ row self.new nothing }
    {
        self.restart(SessionState::NotConnected);
    }

    /// A second connection came while there is one. What is answered is for the second one, which
    /// is then closed; the session goes on as it was.
    pub fn on_second(&mut self) -> Actions
        requires upstream { self.old.role ≡ Role.Upstream }
        requires connected { self.old.state ≢ SessionState.NotConnected }
        ensures row { session_row self.old second ≡ row self.new result }
        ensures unchanged { self.new ≡ self.old }
    {
        Actions::one(Action::Tell(Tell::AlreadyConnected))
    }

    /// A message was taken.
    pub(crate) fn take(&mut self)
        ensures { self.new ≡ taken self.old }
    {
        self.silent = 0;
    }

    /// The peer's description was taken.
    pub(crate) fn stand(&mut self, features: Features)
        ensures { self.new ≡ stands self.old features }
    {
        self.state = SessionState::Standing;
        self.silent = 0;
        self.peer = features;
    }

    /// Forgets all of the connection before.
    pub(crate) fn restart(&mut self, state: SessionState)
        ensures { self.new ≡ in_state (at_rest self.old.role) state }
    {
        self.state = state;
        self.silent = 0;
        self.pings = 0;
        self.peer = no_features();
    }
}

fn no_features() -> Features
    ensures { result ≡ no_features }
{
    Features {
        check_alive: false,
        forecast: false,
        query: false,
        send: false,
    }
}

/// The count of silent ticks after one more.
fn raised(silent: u8) -> u8
    ensures { result ≡ raised silent }
{
    if silent < MOST_SILENT {
        silent + 1
    } else {
        MOST_SILENT
    }
}

/// Whether a peer that was silent for so many ticks is given up: always before it has described
/// itself, and after that where it said that it answers CheckAlive.
fn is_given_up(state: SessionState, silent: u8, peer: Features) -> bool
    ensures { result ≡ is_given_up state silent peer }
{
    if silent < MOST_SILENT {
        return false;
    }
    match state {
        SessionState::NotConnected => false,
        SessionState::Handshake => true,
        SessionState::Standing => peer.check_alive,
    }
}
