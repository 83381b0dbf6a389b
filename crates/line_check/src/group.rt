ghost use Rattle.std.specs.Prelude.{◌≡◌, IfSome};
ghost use Rattle.line_check.specs.Group.{IsOfLine};
ghost use Rattle.line_check.specs.Words.{behind, cut_at_space};
ghost use Rattle.line_check.specs.LogLine.{group_of, is_machine, read_group, text_of};
ghost use Rattle.line_check.specs.Log.{is_same_group};

use crate::cut::cut_at_space;
use line_base::{digits_value, is_digits};

/// The group that a line of a log stands in: its machine and its turn.
#[derive(Clone, Copy, Debug, PartialEq, Eq)]
pub struct Group {
    /// 1 to 64.
    pub machine: u32,
    pub turn: u64,
}

/// The group of a line; `None` exactly where the line is not a machine, a turn and a text, with a
/// space after each of the first two.
pub fn group_of(bytes: &[u8]) -> Option<Group>
    ensures within { IfSome result IsOfLine }
    ensures answer { result ≡ group_of bytes.now }
{
    let Some((machine, rest)) = cut_at_space(bytes) else {
        return None;
    };
    let Some((turn, _text)) = cut_at_space(rest) else {
        return None;
    };
    read_group(machine, turn)
}

/// The text of a line behind its machine and its turn.
pub fn text_of(bytes: &[u8]) -> &[u8]
    ensures { result.now ≡ text_of bytes.now }
{
    behind(behind(bytes))
}

/// What follows the first space.
fn behind(bytes: &[u8]) -> &[u8]
    ensures { result.now ≡ behind (cut_at_space bytes.now) }
{
    match cut_at_space(bytes) {
        Some((_word, rest)) => rest,
        None => &[],
    }
}

fn read_group(machine: &[u8], turn: &[u8]) -> Option<Group>
    ensures within { IfSome result IsOfLine }
    ensures answer { result ≡ read_group machine.now turn.now }
{
    if !is_machine(machine) {
        return None;
    }
    if !is_digits(turn, 1, 15) {
        return None;
    }
    Some(Group {
        machine: digits_value(machine) as u32,
        turn: digits_value(turn) as u64,
    })
}

/// Whether a word is 1 to 64, without a zero before it.
fn is_machine(word: &[u8]) -> bool
    ensures { result ≡ is_machine word.now }
{
    if !is_digits(word, 1, 2) {
        return false;
    }
    let value = digits_value(word);
    0 < value && value <= 64 && (word.len() == 1 || 10 <= value)
}

/// Whether two lines stand in one group.
pub fn is_same_group(one: Option<Group>, other: Option<Group>) -> bool
    ensures { result ≡ is_same_group one other }
{
    match (one, other) {
        (Some(one), Some(other)) => one.machine == other.machine && one.turn == other.turn,
        (Some(_), None) | (None, _) => false,
    }
}
