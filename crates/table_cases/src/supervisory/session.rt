//! What a session does at its words.

use crate::supervisory::messages::message_of;
use hermes_vertical::VerticalKind;
use line_base::Text;
use std::alloc::Global;
use std::io;
use std::io::Write;
use supervisory_core::{Supervised, VerticalAction, unexpected};

/// Appends what a session does at the last word of a case, and whether it stands then.
pub fn tell(alloc: Global, case: &str, to: &mut Vec<u8>) -> io::Result<()> {
    let mut session = Supervised::new();
    let begin = to.len();
    for word in case.split_whitespace() {
        to.truncate(begin);
        meet(alloc, &mut session, word, to)?;
    }
    stands(&session, to)
}

fn stands(session: &Supervised, to: &mut Vec<u8>) -> io::Result<()> {
    if session.stands() {
        write!(to, "; stands")
    } else {
        write!(to, "; waits")
    }
}

/// Meets a word, and appends what is to be done. Nothing is met where the word has no meaning.
fn meet(alloc: Global, session: &mut Supervised, word: &str, to: &mut Vec<u8>) -> io::Result<()> {
    match message_of(alloc, word) {
        Some(message) => say(session.on_message(message), to),
        None => write!(to, "nothing is met"),
    }
}

fn say(answer: Result<VerticalAction, VerticalKind>, to: &mut Vec<u8>) -> io::Result<()> {
    match answer {
        Ok(action) => act(&action, to),
        Err(kind) => Ok(to.extend_from_slice(unexpected(kind).as_bytes())?),
    }
}

fn act(action: &VerticalAction, to: &mut Vec<u8>) -> io::Result<()> {
    match action {
        VerticalAction::Describe => write!(to, "describes itself"),
        VerticalAction::Pong(id) => pong(id, to),
        VerticalAction::Answer { query, order } => answer(*query, order, to),
        VerticalAction::Nothing => write!(to, "nothing"),
    }
}

fn pong(id: &Option<Text>, to: &mut Vec<u8>) -> io::Result<()> {
    write!(to, "pongs")?;
    match id {
        Some(id) => word(id, to),
        None => Ok(()),
    }
}

fn answer(query: u64, order: &Text, to: &mut Vec<u8>) -> io::Result<()> {
    write!(to, "answers {query}")?;
    word(order, to)
}

/// Appends a text, a line feed in it as `&#10;`.
pub fn word(text: &Text, to: &mut Vec<u8>) -> io::Result<()> {
    write!(to, " ")?;
    for byte in text.bytes() {
        if *byte == b'\n' {
            write!(to, "&#10;")?;
        } else {
            to.push(*byte)?;
        }
    }
    Ok(())
}
