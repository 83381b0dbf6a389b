//! What is appended to a text. Where memory is wanting, a part of it may stand there, behind what
//! stood there before.

ghost use Rattle.std.specs.Prelude.{◌≡◌, [], ◌∷◌, ◌++◌, OnOk, codes, decimal};
ghost use Rattle.board_record.specs.BoardId.{id_text};
ghost use Rattle.hermes_element.specs.Standing.{StillStands};
ghost use Rattle.line_report.specs.Texts.{byte_in_line, in_line, place_text};

use board_record::BoardId;
use line_base::Memory;

/// Appends bytes to a text.
#[inline(always)]
pub fn append(bytes: &[u8], to: &mut Vec<u8>) -> Result<(), Memory>
    ensures kept { StillStands to.old.items to.new.items }
    ensures written { OnOk result (to.new.items ≡ to.old.items ++ bytes.now) }
{
    to.extend_from_slice(bytes)?;
    Ok(())
}

/// Appends one byte to a text.
fn append_one(byte: u8, to: &mut Vec<u8>) -> Result<(), Memory>
    ensures kept { StillStands to.old.items to.new.items }
    ensures written { OnOk result (to.new.items ≡ to.old.items ++ byte ∷ []) }
{
    to.push(byte)?;
    Ok(())
}

/// Appends a space.
pub fn append_space(to: &mut Vec<u8>) -> Result<(), Memory>
    ensures kept { StillStands to.old.items to.new.items }
    ensures written { OnOk result (to.new.items ≡ to.old.items ++ codes " ") }
{
    append_one(b' ', to)
}

/// Appends the end of a line.
pub fn append_line_end(to: &mut Vec<u8>) -> Result<(), Memory>
    ensures kept { StillStands to.old.items to.new.items }
    ensures written { OnOk result (to.new.items ≡ to.old.items ++ codes "\n") }
{
    append_one(b'\n', to)
}

/// Appends the digits of a number.
#[tactic(auto, using(crate::proofs::Digits::one_digit))]
#[inline(always)]
pub fn append_digits(number: u64, to: &mut Vec<u8>) -> Result<(), Memory>
    ensures kept { StillStands to.old.items to.new.items }
    ensures written { OnOk result (to.new.items ≡ to.old.items ++ decimal number) }
{
    if number < 10 {
        return append_one(b'0' + number as u8, to);
    }
    append(itoa::Buffer::new().format(number).as_bytes(), to)
}

/// Appends a place word: a number, and the lane behind a point from lane 2 on.
#[inline(always)]
pub fn append_place(lane: u32, number: u64, to: &mut Vec<u8>) -> Result<(), Memory>
    ensures kept { StillStands to.old.items to.new.items }
    ensures written { OnOk result (to.new.items ≡ to.old.items ++ place_text lane number) }
{
    if lane == 1 {
        return append_digits(number, to);
    }
    append_lane(lane, number, to)
}

fn append_lane(lane: u32, number: u64, to: &mut Vec<u8>) -> Result<(), Memory>
    ensures kept { StillStands to.old.items to.new.items }
    ensures written { OnOk result
        (to.new.items ≡ to.old.items ++ (decimal number ++ codes "." ++ decimal lane)) }
{
    append_digits(number, to)?;
    append(b".", to)?;
    append_digits(u64::from(lane), to)
}

/// A space and a word.
pub fn append_word(word: &str, to: &mut Vec<u8>) -> Result<(), Memory>
    ensures kept { StillStands to.old.items to.new.items }
    ensures written { OnOk result (to.new.items ≡ to.old.items ++ (codes " " ++ word.now)) }
{
    append_space(to)?;
    append(word.as_bytes(), to)
}

/// A space and a number.
#[inline(always)]
pub fn append_number(number: u64, to: &mut Vec<u8>) -> Result<(), Memory>
    ensures kept { StillStands to.old.items to.new.items }
    ensures written { OnOk result (to.new.items ≡ to.old.items ++ (codes " " ++ decimal number)) }
{
    append_space(to)?;
    append_digits(number, to)
}

/// A space and a board's id.
pub fn append_id(id: BoardId, to: &mut Vec<u8>) -> Result<(), Memory>
    ensures kept { StillStands to.old.items to.new.items }
    ensures written { OnOk result (to.new.items ≡ to.old.items ++ (codes " " ++ id_text id)) }
{
    append_space(to)?;
    id.write(to)
}

/// A text within a line.
pub fn append_in_line(text: &[u8], to: &mut Vec<u8>) -> Result<(), Memory>
    ensures kept { StillStands to.old.items to.new.items }
    ensures written { OnOk result (to.new.items ≡ to.old.items ++ in_line text.now) }
{
    for byte in text {
        append_byte(*byte, to)?;
    }
    Ok(())
}

fn append_byte(byte: u8, to: &mut Vec<u8>) -> Result<(), Memory>
    ensures kept { StillStands to.old.items to.new.items }
    ensures written { OnOk result (to.new.items ≡ to.old.items ++ byte_in_line byte) }
{
    if byte == 10 {
        return append(b"&#10;", to);
    }
    if byte == 13 {
        return append(b"&#13;", to);
    }
    append_one(byte, to)
}
