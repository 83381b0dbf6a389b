use line_base::{
    BadDecimal, BadMoment, Decimal, Moment, Name, NameError, Text, TextError, Word, is_plain_text,
    read_number,
};
use std::alloc::{AllocError, Global};
use std::str;

/// What a call of `line_base` answers to these bytes.
pub fn answer(alloc: Global, what: &str, bytes: &[u8]) -> Result<String, AllocError> {
    if what == "number" {
        return number(alloc, bytes);
    }
    if what == "moment" {
        return moment(alloc, bytes);
    }
    if what == "decimal" {
        return decimal(alloc, bytes);
    }
    if what == "moment-text" {
        return moment_text(alloc, bytes);
    }
    if what == "decimal-text" {
        return decimal_text(alloc, bytes);
    }
    text_answer(alloc, what, bytes)
}

fn text_answer(alloc: Global, what: &str, bytes: &[u8]) -> Result<String, AllocError> {
    if what == "text" {
        return text(alloc, bytes);
    }
    if what == "plain" {
        return plain(alloc, bytes);
    }
    if what == "digits" {
        return digits(alloc, bytes);
    }
    if what == "name" {
        return name(alloc, bytes);
    }
    if what == "word" {
        return word(alloc, bytes);
    }
    String::from_str(alloc, "no case")
}

fn number(alloc: Global, bytes: &[u8]) -> Result<String, AllocError> {
    match read_number(bytes) {
        Some(number) => format!(in alloc; "{number}"),
        None => String::from_str(alloc, "none"),
    }
}

fn moment(alloc: Global, bytes: &[u8]) -> Result<String, AllocError> {
    match Moment::read(bytes) {
        Ok(moment) => format!(in alloc; "{}", moment.millis()),
        Err(BadMoment) => String::from_str(alloc, "bad moment"),
    }
}

fn decimal(alloc: Global, bytes: &[u8]) -> Result<String, AllocError> {
    match Decimal::read(bytes) {
        Ok(decimal) => format!(in alloc; "{}", decimal.millionths()),
        Err(BadDecimal) => String::from_str(alloc, "bad decimal"),
    }
}

fn moment_text(alloc: Global, bytes: &[u8]) -> Result<String, AllocError> {
    let mut to = Vec::new(alloc);
    if let Ok(moment) = Moment::read(bytes) {
        if moment.write(&mut to).is_err() {
            return Err(AllocError);
        }
    }
    shown(alloc, to.as_slice())
}

fn decimal_text(alloc: Global, bytes: &[u8]) -> Result<String, AllocError> {
    let mut to = Vec::new(alloc);
    if let Ok(decimal) = Decimal::read(bytes) {
        if decimal.write(&mut to).is_err() {
            return Err(AllocError);
        }
    }
    shown(alloc, to.as_slice())
}

/// A text tells how many bytes it has, and its copy whether they are those that were read.
fn text(alloc: Global, bytes: &[u8]) -> Result<String, AllocError> {
    match Text::read(alloc, bytes) {
        Ok(text) => copied(alloc, &text, bytes),
        Err(TextError::TooLong) => String::from_str(alloc, "too long"),
        Err(TextError::BadChar) => String::from_str(alloc, "bad character"),
        Err(TextError::Memory) => Err(AllocError),
    }
}

fn copied(alloc: Global, text: &Text, bytes: &[u8]) -> Result<String, AllocError> {
    match text.copy(alloc) {
        Ok(copy) => {
            let same = copy.bytes() == bytes;
            drop(copy);
            told_same(alloc, same, text.bytes().len())
        }
        Err(_) => Err(AllocError),
    }
}

fn told_same(alloc: Global, same: bool, count: usize) -> Result<String, AllocError> {
    if same {
        return format!(in alloc; "{count} bytes");
    }
    String::from_str(alloc, "another text")
}

fn plain(alloc: Global, bytes: &[u8]) -> Result<String, AllocError> {
    if !is_plain_text(bytes) {
        return String::from_str(alloc, "not plain");
    }
    match Text::plain(alloc, bytes) {
        Ok(text) => copied(alloc, &text, bytes),
        Err(_) => Err(AllocError),
    }
}

fn digits(alloc: Global, bytes: &[u8]) -> Result<String, AllocError> {
    let number = match str::from_utf8(bytes) {
        Ok(text) => text.parse::<u64>().unwrap_or(0),
        Err(_) => 0,
    };
    match Text::number(alloc, number) {
        Ok(text) => shown(alloc, text.bytes()),
        Err(_) => Err(AllocError),
    }
}

fn name(alloc: Global, bytes: &[u8]) -> Result<String, AllocError> {
    match Name::read(alloc, bytes) {
        Ok(name) => shown(alloc, name.bytes()),
        Err(NameError::BadName) => String::from_str(alloc, "bad name"),
        Err(NameError::Memory) => Err(AllocError),
    }
}

fn word(alloc: Global, bytes: &[u8]) -> Result<String, AllocError> {
    match Word::of(alloc, bytes) {
        Ok(word) => shown(alloc, word.bytes()),
        Err(_) => Err(AllocError),
    }
}

/// Bytes as the text that they are.
fn shown(alloc: Global, bytes: &[u8]) -> Result<String, AllocError> {
    match str::from_utf8(bytes) {
        Ok(text) => String::from_str(alloc, text),
        Err(_) => String::from_str(alloc, "no text"),
    }
}
