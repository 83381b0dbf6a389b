//! How an answer and a session are told.

use crate::words::number_of;
use board_record::BoardId;
use hermes_horizontal::Horizontal;
use line_base::{Quality, Severity, Text};
use session_core::{Action, PingId, Session, SessionState, Tell};
use std::io;
use std::io::{ErrorKind, Write};

/// Appends the first thing that is to be done.
pub fn first(first: &Option<Action>, to: &mut Vec<u8>) -> io::Result<()> {
    match first {
        Some(first) => action(first, to),
        None => write!(to, "nothing"),
    }
}

/// Appends what is to be done behind it.
pub fn more(next: &Option<Action>, to: &mut Vec<u8>) -> io::Result<()> {
    match next {
        Some(next) => {
            write!(to, ", ")?;
            action(next, to)
        }
        None => Ok(()),
    }
}

fn action(action: &Action, to: &mut Vec<u8>) -> io::Result<()> {
    to.extend_from_slice(word_of(action).as_bytes())?;
    rest(action, to)
}

fn word_of(action: &Action) -> &'static str {
    match action {
        Action::SendService => "sends ServiceDescription",
        Action::Pong(_) => "pongs",
        Action::Ping(_) => "pings",
        Action::Tell(_) => "tells",
        Action::Close => "closes",
        Action::Stand => "stands",
        Action::Pass(_) => "passes",
    }
}

/// What an action says beside its word.
fn rest(action: &Action, to: &mut Vec<u8>) -> io::Result<()> {
    match action {
        Action::Pong(id) => pong(id, to),
        Action::Ping(number) => write!(to, " {number}"),
        Action::Tell(tell) => notification(*tell, to),
        Action::Pass(message) => passed(message.what(), to),
        _ => Ok(()),
    }
}

fn passed(message: &Horizontal, to: &mut Vec<u8>) -> io::Result<()> {
    write!(to, " {}", message.kind().text())?;
    parts(message, to)
}

fn pong(id: &PingId, to: &mut Vec<u8>) -> io::Result<()> {
    match id.copy(*to.allocator()) {
        Ok(id) => text(&id, to),
        Err(_) => Err(io::Error::from(ErrorKind::OutOfMemory)),
    }
}

fn text(text: &Option<Text>, to: &mut Vec<u8>) -> io::Result<()> {
    match text {
        Some(text) => {
            write!(to, " ")?;
            Ok(to.extend_from_slice(text.bytes())?)
        }
        None => Ok(()),
    }
}

fn notification(tell: Tell, to: &mut Vec<u8>) -> io::Result<()> {
    let severity = severity_of(tell.severity());
    write!(to, " {} {severity} {}", tell.code().number, tell.text())
}

fn severity_of(severity: Severity) -> &'static str {
    match severity {
        Severity::Fatal => "fatal",
        Severity::Error => "error",
        Severity::Warning => "warning",
        Severity::Info => "info",
    }
}

/// The parts by which a message that is passed on is known again.
fn parts(message: &Horizontal, to: &mut Vec<u8>) -> io::Result<()> {
    state(message, to)?;
    quality(message, to)?;
    barcodes(message, to)?;
    id(message, to)
}

fn state(message: &Horizontal, to: &mut Vec<u8>) -> io::Result<()> {
    match message {
        Horizontal::StopTransport { state, .. } => write!(to, " {}", number_of(*state)),
        Horizontal::TransportFinished { state, .. } => write!(to, " {}", number_of(*state)),
        _ => Ok(()),
    }
}

fn quality(message: &Horizontal, to: &mut Vec<u8>) -> io::Result<()> {
    match message {
        Horizontal::MachineReady { quality } => write!(to, " {}", quality_of(*quality)),
        _ => Ok(()),
    }
}

fn barcodes(message: &Horizontal, to: &mut Vec<u8>) -> io::Result<()> {
    match message {
        Horizontal::QueryBoardInfo { top, bottom } => {
            text(top, to)?;
            text(bottom, to)
        }
        _ => Ok(()),
    }
}

fn id(message: &Horizontal, to: &mut Vec<u8>) -> io::Result<()> {
    match id_of(message) {
        Some(id) => write!(to, " {}", id.number()),
        None => Ok(()),
    }
}

fn id_of(message: &Horizontal) -> Option<BoardId> {
    match message {
        Horizontal::BoardAvailable(board) => Some(board.id),
        Horizontal::StartTransport { id } => Some(*id),
        Horizontal::StopTransport { id, .. } => Some(*id),
        Horizontal::TransportFinished { id, .. } => Some(*id),
        Horizontal::BoardForecast(info) => info.id,
        Horizontal::SendBoardInfo(info) => info.id,
        _ => None,
    }
}

fn quality_of(quality: Quality) -> &'static str {
    match quality {
        Quality::Unknown => "unknown",
        Quality::Good => "good",
        Quality::Failed => "failed",
    }
}

/// Appends how a session stands, and the features that its peer listed.
pub fn stands(session: &Session, to: &mut Vec<u8>) -> io::Result<()> {
    write!(to, "; {}", state_of(session.state()))?;
    let peer = session.peer();
    feature(peer.check_alive, " answers", to)?;
    feature(peer.forecast, " forecasts", to)?;
    feature(peer.query, " queries", to)?;
    feature(peer.send, " informs", to)
}

fn state_of(state: SessionState) -> &'static str {
    match state {
        SessionState::NotConnected => "NotConnected",
        SessionState::Handshake => "Handshake",
        SessionState::Standing => "Standing",
    }
}

fn feature(listed: bool, name: &str, to: &mut Vec<u8>) -> io::Result<()> {
    if listed { write!(to, "{name}") } else { Ok(()) }
}
