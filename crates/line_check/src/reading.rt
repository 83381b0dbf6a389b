ghost use Rattle.std.specs.Prelude.{◌≡◌, ◌≤◌, IfSome};
ghost use Rattle.standings.specs.Deeds.{gap_of};
ghost use Rattle.line_check.specs.Words.{behind, cut_at_space as space_cut, first_word};
ghost use Rattle.line_check.specs.LogLine.{deed_in, deed_of, id_at_entry, id_at_exit, id_at_number, id_of, reading_of, replaced_in, said_in};
ghost use Rattle.line_check.specs.Group.{IsOfLine};
ghost use Rattle.line_check.specs.Within.{IsNear, IsWithin};

use crate::cut::cut_at_space;
use crate::group::{Group, text_of};
use crate::kind::{Kind, kind_of};
use board_record::BoardId;
use line_base::is_digits;
use standings::Deed;

/// What a line's text says.
#[derive(Clone, Copy, Debug, PartialEq, Eq)]
pub enum Reading {
    /// It is passed over.
    Nothing,
    /// It begins as a deed and is none.
    Bad,
    Does(Deed),
}

/// What a line says, of which this is the group.
pub fn said_in(group: Option<Group>, bytes: &[u8]) -> Reading
    requires { IfSome group IsOfLine }
    ensures answer { result ≡ said_in group bytes.now }
    ensures within { IsWithin group result }
{
    match group {
        Some(group) => reading_of(group.machine, text_of(bytes)),
        None => Reading::Bad,
    }
}

/// What a text says that a machine tells: a deed, or nothing where its first word is that of none.
fn reading_of(machine: u32, text: &[u8]) -> Reading
    requires { machine ≤ 64 }
    ensures answer { result ≡ reading_of machine text.now }
    ensures near { IsNear result }
{
    let Some(kind) = kind_of(first_word(text)) else {
        return Reading::Nothing;
    };
    match deed_behind(kind, machine, text) {
        Some(deed) => Reading::Does(deed),
        None => Reading::Bad,
    }
}

fn first_word(text: &[u8]) -> &[u8]
    ensures { result.now ≡ first_word text.now }
{
    match cut_at_space(text) {
        Some((word, _rest)) => word,
        None => text,
    }
}

fn deed_behind(kind: Kind, machine: u32, text: &[u8]) -> Option<Deed>
    requires { machine ≤ 64 }
    ensures near { IfSome result (λ deed. gap_of deed ≤ 64) }
    ensures answer { result ≡ deed_in kind machine (space_cut (behind (space_cut text.now))) }
{
    let Some((_word, rest)) = cut_at_space(text) else {
        return None;
    };
    let Some((place, ids)) = cut_at_space(rest) else {
        return None;
    };
    deed_of(kind, machine, place, ids)
}

fn deed_of(kind: Kind, machine: u32, place: &[u8], ids: &[u8]) -> Option<Deed>
    requires { machine ≤ 64 }
    ensures near { IfSome result (λ deed. gap_of deed ≤ 64) }
    ensures answer { result ≡ deed_of kind machine place.now ids.now }
{
    match kind {
        Kind::Inserts => match id_at_number(place, ids) {
            Some(id) => Some(Deed::Inserts { machine, id }),
            None => None,
        },
        Kind::Removes => match id_at_number(place, ids) {
            Some(id) => Some(Deed::Removes { machine, id }),
            None => None,
        },
        Kind::Replaces => replaced(machine, place, ids),
        Kind::AtEntry(kind) => match id_at_entry(machine, place, ids) {
            Some(id) => Some(kind.at(machine.saturating_sub(1), id)),
            None => None,
        },
        Kind::AtExit(kind) => match id_at_exit(place, ids) {
            Some(id) => Some(kind.at(machine, id)),
            None => None,
        },
    }
}

fn replaced(machine: u32, place: &[u8], ids: &[u8]) -> Option<Deed>
    requires { machine ≤ 64 }
    ensures near { IfSome result (λ deed. gap_of deed ≤ 64) }
    ensures answer { result ≡ replaced_in machine place.now (space_cut ids.now) }
{
    let Some((old, new)) = cut_at_space(ids) else {
        return None;
    };
    let Some(old) = id_at_number(place, old) else {
        return None;
    };
    let Some(new) = id_of(new) else {
        return None;
    };
    Some(Deed::Replaces { machine, old, new })
}

fn id_at_number(place: &[u8], word: &[u8]) -> Option<BoardId>
    ensures { result ≡ id_at_number place.now word.now }
{
    if is_digits(place, 1, 10) {
        id_of(word)
    } else {
        None
    }
}

fn id_at_entry(machine: u32, place: &[u8], word: &[u8]) -> Option<BoardId>
    ensures { result ≡ id_at_entry machine place.now word.now }
{
    if place == &b"in"[..] && 1 < machine {
        id_of(word)
    } else {
        None
    }
}

fn id_at_exit(place: &[u8], word: &[u8]) -> Option<BoardId>
    ensures { result ≡ id_at_exit place.now word.now }
{
    if place == &b"out"[..] {
        id_of(word)
    } else {
        None
    }
}

fn id_of(word: &[u8]) -> Option<BoardId>
    ensures { result ≡ id_of word.now }
{
    match BoardId::read(word) {
        Ok(id) => Some(id),
        Err(_) => None,
    }
}
