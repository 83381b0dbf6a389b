use case_text::spell;
use std::alloc::{AllocError, Global};

/// The lines of a file that is accepted.
const LINES: [&str; 6] = [
    "number = 7",
    "machine_id = \"Loader\"",
    "lane = 1",
    "capacity = 4",
    "panel_port = 50900",
    "turns = 1000",
];

/// The document of a case. Behind `only` it is the text there, and nothing where no text follows.
/// Else it is the file that is accepted with each change in turn: `-key` leaves its line out, and
/// another line stands in the place of that of its key, or at the end.
pub fn document_of(alloc: Global, line: &str) -> Result<Vec<u8>, AllocError> {
    let mut document = Vec::new(alloc);
    if line == "only" {
        return Ok(document);
    }
    if let Some(text) = line.strip_prefix("only ") {
        spell(text, &mut document)?;
        return Ok(document);
    }
    for line_of_file in LINES {
        if !is_changed(line_of_file, line) {
            append_line(line_of_file, &mut document)?;
        }
    }
    for change in line.split("; ") {
        if !change.starts_with("-") {
            append_line(change, &mut document)?;
        }
    }
    Ok(document)
}

fn append_line(line: &str, to: &mut Vec<u8>) -> Result<(), AllocError> {
    spell(line, to)?;
    to.extend_from_slice(b"\n")
}

/// Whether one of the changes is of the key of this line.
fn is_changed(line: &str, changes: &str) -> bool {
    changes
        .split("; ")
        .any(|change| key_of(change) == key_of(line))
}

/// The key of a line, or of one that is left out, without the quotes that it may have.
fn key_of(line: &str) -> &str {
    let line = line.strip_prefix("-").unwrap_or(line);
    match line.split_once(' ') {
        Some((key, _)) => unquoted(key),
        None => line,
    }
}

fn unquoted(key: &str) -> &str {
    match key.strip_prefix("\"") {
        Some(quoted) => quoted.strip_suffix("\"").unwrap_or(quoted),
        None => key,
    }
}
