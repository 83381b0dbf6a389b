use std::io::{self, Write};
use std::str;

/// How often a log is gone on with at most.
const ROUNDS: usize = 10_000;

/// A machine's log, how many of its lines stand in the merged one, and how many messages these
/// sent and heard.
#[derive(Clone, Copy, Drop)]
struct Log<'a> {
    number: u8,
    text: &'a str,
    done: usize,
    sent: usize,
    heard: usize,
}

impl<'a> Log<'a> {
    fn new(number: u8, text: &'a [u8]) -> Log<'a> {
        Log {
            number,
            text: str::from_utf8(text).unwrap_or("no text"),
            done: 0,
            sent: 0,
            heard: 0,
        }
    }

    /// Appends the lines up to one that hears a message which isn't sent yet, where the other
    /// machine has sent so many, and at most up to the end of a turn that sends one. Answers
    /// whether there was a line to append.
    fn go_on(&mut self, sent_by_other: usize, to: &mut Vec<u8>) -> io::Result<bool> {
        let number = self.number;
        let before = self.done;
        let mut sends_in: &[u8] = b"";
        for line in self.text.lines().skip(before) {
            let (turn, text) = line.split_once(' ').unwrap_or(("", line));
            let is_next = !sends_in.is_empty() && sends_in != turn.as_bytes();
            if is_next || !self.may_take(text, sent_by_other) {
                break;
            }
            if text.starts_with("sends ") {
                self.sent = self.sent.saturating_add(1);
                sends_in = turn.as_bytes();
            }
            writeln!(to, "{number} {line}")?;
            self.done = self.done.saturating_add(1);
        }
        Ok(self.done != before)
    }

    /// Whether a line is none that hears a message too early. Counts the message.
    fn may_take(&mut self, text: &str, sent_by_other: usize) -> bool {
        if !text.starts_with("hears ") {
            return true;
        }
        if self.heard == sent_by_other {
            return false;
        }
        self.heard = self.heard.saturating_add(1);
        true
    }

    fn is_done(&self) -> bool {
        self.text.lines().skip(self.done).next().is_none()
    }
}

/// Appends the merged log of machine 1 and machine 2, in an order in which no message is heard
/// before it was sent. Answers whether there is one for all lines.
///
/// The n-th message that a machine hears counts as the n-th that the other sent: none may be lost.
pub fn merge(upper: &[u8], lower: &[u8], to: &mut Vec<u8>) -> io::Result<bool> {
    let mut upper = Log::new(1, upper);
    let mut lower = Log::new(2, lower);
    for _ in 0..ROUNDS {
        let above = upper.go_on(lower.sent, to)?;
        let below = lower.go_on(upper.sent, to)?;
        if !above && !below {
            break;
        }
    }
    Ok(upper.is_done() && lower.is_done())
}
