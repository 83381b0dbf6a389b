//! The deed of a line, by the definitions of `line_check`, whose own reading is private.

ghost use Rattle.std.specs.Prelude.{◌≡◌, ◌≤◌, IfSome};
ghost use Rattle.standings.specs.Deeds.{gap_of};
ghost use Rattle.line_check.specs.Words.{cut_at_space as space_cut};
ghost use Rattle.line_check.specs.LogLine.{deed_of, id_at_entry, id_at_exit, id_at_number, id_of, read_group, reading_of, replaced_in, said_by};
ghost use Rattle.board_traces.specs.Reading.{deed_said, kind_as, machine_in};

use crate::cut::cut_at_space;
use crate::kind::{Kind, kind_of};
use board_record::BoardId;
use line_base::{digits_value, is_digits};
use standings::Deed;

/// The deed that a line of a merged log says; `None` where it says none.
pub fn deed_of_line(bytes: &[u8]) -> Option<Deed>
    ensures answer { result ≡ deed_said (said_by bytes.now) }
    ensures near { IfSome result (λ deed. gap_of deed ≤ 64) }
{
    let Some((machine, rest)) = cut_at_space(bytes) else {
        return None;
    };
    let Some((turn, text)) = cut_at_space(rest) else {
        return None;
    };
    match read_machine(machine, turn) {
        Some(machine) => deed_of_text(machine, text),
        None => None,
    }
}

/// The machine of a line that begins with these words.
fn read_machine(machine: &[u8], turn: &[u8]) -> Option<u32>
    ensures answer { result ≡ machine_in (read_group machine.now turn.now) }
    ensures within { IfSome result (λ machine. machine ≤ 64) }
{
    if !is_digits(machine, 1, 2) {
        return None;
    }
    let value = digits_value(machine);
    if value == 0 || 64 < value || (machine.len() != 1 && value < 10) {
        return None;
    }
    if is_digits(turn, 1, 15) {
        Some(value as u32)
    } else {
        None
    }
}

fn deed_of_text(machine: u32, text: &[u8]) -> Option<Deed>
    requires { machine ≤ 64 }
    ensures answer { result ≡ deed_said (reading_of machine text.now) }
    ensures near { IfSome result (λ deed. gap_of deed ≤ 64) }
{
    let Some((word, rest)) = cut_at_space(text) else {
        return None;
    };
    let Some(kind) = kind_of(word) else {
        return None;
    };
    let Some((place, ids)) = cut_at_space(rest) else {
        return None;
    };
    deed_of(kind, machine, place, ids)
}

fn deed_of(kind: Kind, machine: u32, place: &[u8], ids: &[u8]) -> Option<Deed>
    requires { machine ≤ 64 }
    ensures near { IfSome result (λ deed. gap_of deed ≤ 64) }
    ensures answer { result ≡ deed_of (kind_as kind) machine place.now ids.now }
{
    match kind {
        Kind::Inserts => match id_at_number(place, ids) {
            Some(id) => Some(Deed::Inserts { machine, id }),
            None => None,
        },
        Kind::Removes => match id_at_number(place, ids) {
            Some(id) => Some(Deed::Removes { machine, id }),
            None => None,
        },
        Kind::Replaces => replaced(machine, place, ids),
        Kind::AtEntry(kind) => match id_at_entry(machine, place, ids) {
            Some(id) => Some(kind.at(machine.saturating_sub(1), id)),
            None => None,
        },
        Kind::AtExit(kind) => match id_at_exit(place, ids) {
            Some(id) => Some(kind.at(machine, id)),
            None => None,
        },
    }
}

fn replaced(machine: u32, place: &[u8], ids: &[u8]) -> Option<Deed>
    requires { machine ≤ 64 }
    ensures near { IfSome result (λ deed. gap_of deed ≤ 64) }
    ensures answer { result ≡ replaced_in machine place.now (space_cut ids.now) }
{
    let Some((old, new)) = cut_at_space(ids) else {
        return None;
    };
    let Some(old) = id_at_number(place, old) else {
        return None;
    };
    let Some(new) = id_of(new) else {
        return None;
    };
    Some(Deed::Replaces { machine, old, new })
}

fn id_at_number(place: &[u8], word: &[u8]) -> Option<BoardId>
    ensures { result ≡ id_at_number place.now word.now }
{
    if is_digits(place, 1, 10) {
        id_of(word)
    } else {
        None
    }
}

fn id_at_entry(machine: u32, place: &[u8], word: &[u8]) -> Option<BoardId>
    ensures { result ≡ id_at_entry machine place.now word.now }
{
    if place == &b"in"[..] && 1 < machine {
        id_of(word)
    } else {
        None
    }
}

fn id_at_exit(place: &[u8], word: &[u8]) -> Option<BoardId>
    ensures { result ≡ id_at_exit place.now word.now }
{
    if place == &b"out"[..] {
        id_of(word)
    } else {
        None
    }
}

fn id_of(word: &[u8]) -> Option<BoardId>
    ensures { result ≡ id_of word.now }
{
    match BoardId::read(word) {
        Ok(id) => Some(id),
        Err(_) => None,
    }
}
