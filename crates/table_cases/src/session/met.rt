//! What the words of a case mean to a session.

ghost use Rattle.std.specs.Prelude.{◌≢◌};

use crate::session::messages::message_of;
use crate::session::told;
use line_base::Role;
use session_core::{Action, Actions, Breach, Session, SessionState};
use std::alloc::Global;
use std::io;
use std::io::Write;

/// Meets a word, and appends what the session does. Nothing is met where the word has no meaning,
/// and at what doesn't come in this state.
pub fn meet(alloc: Global, session: &mut Session, word: &str, to: &mut Vec<u8>) -> io::Result<()> {
    if word == "opens" {
        return opens(session, to);
    }
    if session.state() == SessionState::NotConnected {
        return nothing(to);
    }
    if word == "second" {
        return second(session, to);
    }
    connected(alloc, session, word, to)
}

fn nothing(to: &mut Vec<u8>) -> io::Result<()> {
    write!(to, "nothing is met")
}

fn opens(session: &mut Session, to: &mut Vec<u8>) -> io::Result<()> {
    if session.state() != SessionState::NotConnected {
        return nothing(to);
    }
    say(session.on_open(), to)
}

fn second(session: &mut Session, to: &mut Vec<u8>) -> io::Result<()> {
    if session.role() != Role::Upstream || session.state() == SessionState::NotConnected {
        return nothing(to);
    }
    say(session.on_second(), to)
}

/// A word that a session with a connection may meet.
fn connected(alloc: Global, session: &mut Session, word: &str, to: &mut Vec<u8>) -> io::Result<()>
    requires { session.old.state ≢ SessionState.NotConnected }
{
    if word == "ticks" {
        return ticks(session, to);
    }
    if word == "shuts-down" {
        return shuts_down(session, to);
    }
    if word == "is-closed" {
        return closed(session, to);
    }
    match word.strip_prefix("holding:") {
        Some(word) => hears(alloc, session, word, true, to),
        None => hears(alloc, session, word, false, to),
    }
}

fn ticks(session: &mut Session, to: &mut Vec<u8>) -> io::Result<()>
    requires { session.old.state ≢ SessionState.NotConnected }
{
    say(session.on_tick(), to)
}

fn shuts_down(session: &mut Session, to: &mut Vec<u8>) -> io::Result<()>
    requires { session.old.state ≢ SessionState.NotConnected }
{
    say(session.on_shutdown(), to)
}

fn closed(session: &mut Session, to: &mut Vec<u8>) -> io::Result<()>
    requires { session.old.state ≢ SessionState.NotConnected }
{
    session.on_closed();
    write!(to, "nothing")
}

/// What is to be done is told, part by part.
fn say(actions: Actions, to: &mut Vec<u8>) -> io::Result<()> {
    let Actions {
        first,
        second,
        third,
    } = actions;
    let one = say_first(first, to);
    let two = say_more(second, to);
    let three = say_more(third, to);
    one?;
    two?;
    three
}

fn say_first(first: Option<Action>, to: &mut Vec<u8>) -> io::Result<()> {
    told::first(&first, to)
}

fn say_more(next: Option<Action>, to: &mut Vec<u8>) -> io::Result<()> {
    told::more(&next, to)
}

fn answered(answer: Result<Actions, Breach>, to: &mut Vec<u8>) -> io::Result<()> {
    match answer {
        Ok(actions) => say(actions, to),
        Err(breach) => Ok(to.extend_from_slice(breach.text().as_bytes())?),
    }
}

/// A message, while the outlet holds a board or not.
fn hears(
    alloc: Global,
    session: &mut Session,
    word: &str,
    holding: bool,
    to: &mut Vec<u8>,
) -> io::Result<()>
    requires { session.old.state ≢ SessionState.NotConnected }
{
    match message_of(alloc, word) {
        Some(message) => answered(session.on_message(message, holding), to),
        None => nothing(to),
    }
}
