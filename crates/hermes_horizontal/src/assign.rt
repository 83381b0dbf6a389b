//! Attributes, written one by one. Where memory is wanting, the calls that are given out leave the
//! text as it was; of those in here it is said that what stood there before still stands.

ghost use Rattle.std.specs.Prelude.{◌≡◌, ◌++◌, OnOk, OnErr, option_map};
ghost use Rattle.hermes_element.specs.Standing.{StillStands};
ghost use Rattle.hermes_horizontal.specs.Canonical.{assignment, assignment_if};
ghost use Rattle.hermes_horizontal.specs.Values.{worded, numbered, identified, measured, timed};

use crate::attr::Attr;
use board_record::BoardId;
use hermes_element::write_attribute;
use line_base::{Decimal, Memory, Moment, Text};

pub fn append(to: &mut Vec<u8>, bytes: &[u8]) -> Result<(), Memory>
    ensures kept { StillStands to.old.items to.new.items }
    ensures written { OnOk result (to.new.items ≡ to.old.items ++ bytes.now) }
    ensures unchanged { OnErr result (to.new.items ≡ to.old.items) }
{
    match to.extend_from_slice(bytes) {
        Ok(()) => Ok(()),
        Err(_) => Err(Memory),
    }
}

pub fn append_text(attr: Attr, text: &Text, to: &mut Vec<u8>) -> Result<(), Memory>
    ensures kept { StillStands to.old.items to.new.items }
    ensures written { OnOk result (to.new.items ≡ to.old.items ++ assignment attr (worded text.now)) }
    ensures unchanged { OnErr result (to.new.items ≡ to.old.items) }
{
    write_attribute(attr.text().as_bytes(), text.bytes(), to)
}

pub fn append_optional_text(attr: Attr, text: Option<&Text>, to: &mut Vec<u8>) -> Result<(), Memory>
    ensures kept { StillStands to.old.items to.new.items }
    ensures written { OnOk result
        (to.new.items ≡ to.old.items
        ++ assignment_if attr (option_map (λ text. worded text.now) text.entry)) }
    ensures unchanged { OnErr result (to.new.items ≡ to.old.items) }
{
    match text {
        Some(text) => append_text(attr, text, to),
        None => Ok(()),
    }
}

pub fn append_number(attr: Attr, number: u32, to: &mut Vec<u8>) -> Result<(), Memory>
    ensures kept { StillStands to.old.items to.new.items }
    ensures written { OnOk result (to.new.items ≡ to.old.items ++ assignment attr (numbered number)) }
    ensures unchanged { OnErr result (to.new.items ≡ to.old.items) }
{
    let before = to.len();
    match put_number(attr, number, to) {
        Ok(()) => Ok(()),
        Err(Memory) => {
            to.truncate(before);
            Err(Memory)
        }
    }
}

/// The same, but where memory is wanting a part of it may stand there.
fn put_number(attr: Attr, number: u32, to: &mut Vec<u8>) -> Result<(), Memory>
    ensures kept { StillStands to.old.items to.new.items }
    ensures written { OnOk result (to.new.items ≡ to.old.items ++ assignment attr (numbered number)) }
{
    append(to, attr.opening().as_bytes())?;
    append(to, itoa::Buffer::new().format(number).as_bytes())?;
    append(to, b"\"")
}

pub fn append_optional_number(
    attr: Attr,
    number: Option<u32>,
    to: &mut Vec<u8>,
) -> Result<(), Memory>
    ensures kept { StillStands to.old.items to.new.items }
    ensures written { OnOk result
        (to.new.items ≡ to.old.items ++ assignment_if attr (option_map numbered number)) }
    ensures unchanged { OnErr result (to.new.items ≡ to.old.items) }
{
    match number {
        Some(number) => append_number(attr, number, to),
        None => Ok(()),
    }
}

pub fn append_id(attr: Attr, id: BoardId, to: &mut Vec<u8>) -> Result<(), Memory>
    ensures kept { StillStands to.old.items to.new.items }
    ensures written { OnOk result (to.new.items ≡ to.old.items ++ assignment attr (identified id)) }
    ensures unchanged { OnErr result (to.new.items ≡ to.old.items) }
{
    let before = to.len();
    match put_id(attr, id, to) {
        Ok(()) => Ok(()),
        Err(Memory) => {
            to.truncate(before);
            Err(Memory)
        }
    }
}

/// The same, but where memory is wanting a part of it may stand there.
fn put_id(attr: Attr, id: BoardId, to: &mut Vec<u8>) -> Result<(), Memory>
    ensures kept { StillStands to.old.items to.new.items }
    ensures written { OnOk result (to.new.items ≡ to.old.items ++ assignment attr (identified id)) }
{
    append(to, attr.opening().as_bytes())?;
    id.write(to)?;
    append(to, b"\"")
}

pub fn append_optional_id(attr: Attr, id: Option<BoardId>, to: &mut Vec<u8>) -> Result<(), Memory>
    ensures kept { StillStands to.old.items to.new.items }
    ensures written { OnOk result
        (to.new.items ≡ to.old.items ++ assignment_if attr (option_map identified id)) }
{
    match id {
        Some(id) => append_id(attr, id, to),
        None => Ok(()),
    }
}

fn append_decimal(attr: Attr, decimal: Decimal, to: &mut Vec<u8>) -> Result<(), Memory>
    ensures kept { StillStands to.old.items to.new.items }
    ensures written { OnOk result (to.new.items ≡ to.old.items ++ assignment attr (measured decimal)) }
{
    let _millionths = decimal.millionths();
    append(to, attr.opening().as_bytes())?;
    decimal.write(to)?;
    append(to, b"\"")
}

pub fn append_optional_decimal(
    attr: Attr,
    decimal: Option<Decimal>,
    to: &mut Vec<u8>,
) -> Result<(), Memory>
    ensures kept { StillStands to.old.items to.new.items }
    ensures written { OnOk result
        (to.new.items ≡ to.old.items ++ assignment_if attr (option_map measured decimal)) }
{
    match decimal {
        Some(decimal) => append_decimal(attr, decimal, to),
        None => Ok(()),
    }
}

fn append_moment(attr: Attr, moment: Moment, to: &mut Vec<u8>) -> Result<(), Memory>
    ensures kept { StillStands to.old.items to.new.items }
    ensures written { OnOk result (to.new.items ≡ to.old.items ++ assignment attr (timed moment)) }
    ensures unchanged { OnErr result (to.new.items ≡ to.old.items) }
{
    let before = to.len();
    match put_moment(attr, moment, to) {
        Ok(()) => Ok(()),
        Err(Memory) => {
            to.truncate(before);
            Err(Memory)
        }
    }
}

/// The same, but where memory is wanting a part of it may stand there.
fn put_moment(attr: Attr, moment: Moment, to: &mut Vec<u8>) -> Result<(), Memory>
    ensures kept { StillStands to.old.items to.new.items }
    ensures written { OnOk result (to.new.items ≡ to.old.items ++ assignment attr (timed moment)) }
{
    append(to, attr.opening().as_bytes())?;
    moment.write(to)?;
    append(to, b"\"")
}

pub fn append_optional_moment(
    attr: Attr,
    moment: Option<Moment>,
    to: &mut Vec<u8>,
) -> Result<(), Memory>
    ensures kept { StillStands to.old.items to.new.items }
    ensures written { OnOk result
        (to.new.items ≡ to.old.items ++ assignment_if attr (option_map timed moment)) }
    ensures unchanged { OnErr result (to.new.items ≡ to.old.items) }
{
    match moment {
        Some(moment) => append_moment(attr, moment, to),
        None => Ok(()),
    }
}
