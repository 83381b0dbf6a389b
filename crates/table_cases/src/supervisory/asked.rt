//! What a book of work orders answers at its words.

use crate::supervisory::messages::message_of;
use crate::supervisory::session::word;
use hermes_vertical::{Question, Vertical};
use line_base::Text;
use std::alloc::Global;
use std::io;
use std::io::Write;
use supervisory_core::{AnswerError, AskError, OrderBook};

/// Appends what a book answers at the last word of a case, how many questions were asked, and how
/// many of them wait.
pub fn tell(alloc: Global, case: &str, to: &mut Vec<u8>) -> io::Result<()> {
    let mut book = OrderBook::new(alloc);
    let begin = to.len();
    for word in case.split_whitespace() {
        to.truncate(begin);
        meet(alloc, &mut book, word, to)?;
    }
    write!(
        to,
        "; asked {}, waiting {}",
        book.asked(),
        book.unanswered()
    )
}

/// Meets a word: `ask` and `place` ask by a barcode and by a place, `ask:N` asks N times,
/// `answer:N:W` and `breaks:N` answer the question N, by the word W and by a text with a line
/// feed, and `kept:N` looks at what is kept of it.
fn meet(alloc: Global, book: &mut OrderBook, word: &str, to: &mut Vec<u8>) -> io::Result<()> {
    match word.split_once(':') {
        Some(("ask", count)) => ask_often(alloc, book, number(count), to),
        Some(("answer", rest)) => answer_by(alloc, book, rest, to),
        Some(("breaks", query)) => breaks(alloc, book, number(query), to),
        Some(("kept", query)) => kept(book, number(query), to),
        _ => ask_by(alloc, book, word, to),
    }
}

fn number(digits: &str) -> u64 {
    digits.parse().unwrap_or(0)
}

fn ask_by(alloc: Global, book: &mut OrderBook, word: &str, to: &mut Vec<u8>) -> io::Result<()> {
    match word {
        "ask" => ask(alloc, book, "queries", to),
        "place" => ask(alloc, book, "places", to),
        _ => write!(to, "nothing"),
    }
}

fn ask_often(alloc: Global, book: &mut OrderBook, count: u64, to: &mut Vec<u8>) -> io::Result<()> {
    let begin = to.len();
    for _ in 0..count {
        to.truncate(begin);
        ask(alloc, book, "queries", to)?;
    }
    Ok(())
}

fn ask(alloc: Global, book: &mut OrderBook, word: &str, to: &mut Vec<u8>) -> io::Result<()> {
    match question_of(alloc, word) {
        Some(question) => said(book.ask(question), to),
        None => write!(to, "nothing"),
    }
}

fn question_of(alloc: Global, word: &str) -> Option<Question> {
    match message_of(alloc, word) {
        Some(Vertical::QueryWorkOrderInfo { question, .. }) => Some(question),
        _ => None,
    }
}

fn said(answer: Result<u64, AskError>, to: &mut Vec<u8>) -> io::Result<()> {
    match answer {
        Ok(number) => write!(to, "asks {number}"),
        Err(AskError::QueriesFull) => write!(to, "no: queries full"),
        Err(AskError::Memory) => write!(to, "out of memory"),
    }
}

fn answer_by(alloc: Global, book: &mut OrderBook, rest: &str, to: &mut Vec<u8>) -> io::Result<()> {
    match rest.split_once(':') {
        Some((query, order)) => answer(alloc, book, number(query), order.as_bytes(), to),
        None => write!(to, "nothing"),
    }
}

fn breaks(alloc: Global, book: &mut OrderBook, query: u64, to: &mut Vec<u8>) -> io::Result<()> {
    answer(alloc, book, query, b"a\nb", to)
}

fn answer(
    alloc: Global,
    book: &mut OrderBook,
    query: u64,
    order: &[u8],
    to: &mut Vec<u8>,
) -> io::Result<()> {
    match Text::read(alloc, order) {
        Ok(order) => taken(book.answer(query, order), to),
        Err(_) => write!(to, "nothing"),
    }
}

fn taken(answer: Result<(), AnswerError>, to: &mut Vec<u8>) -> io::Result<()> {
    match answer {
        Ok(()) => write!(to, "is taken"),
        Err(error) => write!(to, "tells {} {}", error.code().number, error.text()),
    }
}

fn kept(book: &OrderBook, query: u64, to: &mut Vec<u8>) -> io::Result<()> {
    write!(to, "keeps")?;
    match book.kept_answer(query) {
        Some(order) => word(order, to),
        None => write!(to, " none"),
    }
}
