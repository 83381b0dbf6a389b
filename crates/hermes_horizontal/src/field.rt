//! An attribute that a message may have, and its value.

ghost use Rattle.std.specs.Prelude.{◌≡◌, ◌≤◌, ℕ, Some, Ok, IfOk, option_map};
ghost use Rattle.hermes_horizontal.specs.Fields.{Gives, LeftOut, fresh, text_in};
ghost use Rattle.hermes_horizontal.specs.Spelling.{value_at, value_or_bad};
ghost use Rattle.hermes_horizontal.specs.Values as values;
ghost use Rattle.hermes_horizontal.specs.Values.{long_number_of};
ghost use Rattle.hermes_horizontal.specs.Rows as rows;
ghost use Rattle.hermes_horizontal.specs.Parts.{of_ping, of_severity, of_quality, of_flip, of_transfer};
ghost use Rattle.line_base.specs.Number.{number_of};

use crate::attr::Attr;
use crate::fault::{Fault, Refusal};
use crate::message::Ping;
use board_record::BoardId;
use hermes_element::{LentAttribute, LentValue};
use line_base::{
    Decimal, Flip, Memory, Moment, Quality, Severity, Text, Transfer, digits_value, is_digits,
    read_number,
};
use std::alloc::Global;

/// An attribute that a message may have, and the first of its name that an element has.
#[derive(Drop)]
pub struct Field<'a> {
    pub attr: Attr,
    pub found: Option<LentAttribute<'a>>,
}

impl<'a> Field<'a> {
    /// Nothing found yet.
    #[inline]
    pub fn of(attr: Attr) -> Field<'a>
        ensures { result ≡ fresh attr }
    {
        Field { attr, found: None }
    }

    /// A text that must be there.
    #[inline]
    pub fn text(&self, at: usize) -> Result<&LentValue<'a>, Refusal>
        ensures { Gives (λ text. Some (values.worded text.now)) result
            (value_at at (rows.required self.now.attr values.text) self.now.found) }
    {
        match &self.found {
            Some(attribute) => Ok(&attribute.value),
            None => Err(missing(self.attr, at)),
        }
    }

    /// Refuses a text that is not there where it is required.
    #[inline]
    pub fn check_text(&self, at: usize, required: bool) -> Result<(), Refusal>
        ensures { Gives (λ _. text_in self.now) result
            (value_at at (rows.required_if required self.now.attr values.text) self.now.found) }
    {
        match &self.found {
            None if required => Err(missing(self.attr, at)),
            _ => Ok(()),
        }
    }

    /// A text that may be left out.
    #[inline]
    pub fn optional_text(&self, alloc: Global) -> Result<Option<Text>, Memory>
        ensures { (at : ℕ)
            → IfOk result
            (λ text. value_at at (rows.optional self.now.attr values.text) self.now.found
            ≡ Ok (option_map values.worded text)) }
    {
        match &self.found {
            Some(attribute) => Ok(Some(attribute.value.text(alloc)?)),
            None => Ok(None),
        }
    }

    /// A number that must be there.
    pub fn number(&self, at: usize) -> Result<u32, Refusal>
        ensures { Gives (λ number. Some (values.numbered number)) result
            (value_at at (rows.required self.now.attr values.number) self.now.found) }
    {
        match &self.found {
            Some(attribute) => plain_number_in(self.attr, attribute),
            None => Err(missing(self.attr, at)),
        }
    }

    /// A number that may be left out.
    pub fn optional_number(&self) -> Result<Option<u32>, Refusal>
        ensures { (at : ℕ)
            → Gives (option_map values.numbered) result
            (value_at at (rows.optional self.now.attr values.number) self.now.found) }
    {
        match &self.found {
            Some(attribute) => match read_number(attribute.value.bytes()) {
                Some(number) => Ok(Some(number)),
                None => Err(bad(self.attr, attribute)),
            },
            None => Ok(None),
        }
    }

    /// A long number that must be there.
    pub fn long_number(&self, at: usize) -> Result<u64, Refusal>
        ensures { Gives (λ number. Some (values.numbered number)) result
            (value_at at (rows.required self.now.attr values.long_number) self.now.found) }
    {
        match &self.found {
            Some(attribute) => match read_long_number(attribute.value.bytes()) {
                Some(number) => Ok(number),
                None => Err(bad(self.attr, attribute)),
            },
            None => Err(missing(self.attr, at)),
        }
    }

    /// A number from `low` to `high` that must be there.
    pub fn choice(&self, at: usize, low: u32, high: u32) -> Result<u32, Refusal>
        ensures value { Gives (λ number. Some (values.numbered number)) result
            (value_at at (rows.required self.now.attr (values.choice low high)) self.now.found) }
        ensures within { IfOk result (λ number. (low ≤ number) × (number ≤ high)) }
    {
        match &self.found {
            Some(attribute) => number_in(self.attr, attribute, low, high),
            None => Err(missing(self.attr, at)),
        }
    }

    /// An id that must be there.
    pub fn id(&self, at: usize) -> Result<BoardId, Refusal>
        ensures { Gives (λ id. Some (values.identified id)) result
            (value_at at (rows.required self.now.attr values.identity) self.now.found) }
    {
        match &self.found {
            Some(attribute) => id_in(self.attr, attribute),
            None => Err(missing(self.attr, at)),
        }
    }

    /// An id that must be there where it is required.
    pub fn id_if(&self, at: usize, required: bool) -> Result<Option<BoardId>, Refusal>
        ensures { Gives (option_map values.identified) result
            (value_at at (rows.required_if required self.now.attr values.identity) self.now.found) }
    {
        match &self.found {
            Some(attribute) => Ok(Some(id_in(self.attr, attribute)?)),
            None => left_out(self.attr, at, required),
        }
    }

    /// A decimal that may be left out.
    pub fn optional_decimal(&self) -> Result<Option<Decimal>, Refusal>
        ensures { (at : ℕ)
            → Gives (option_map values.measured) result
            (value_at at (rows.optional self.now.attr values.decimal) self.now.found) }
    {
        match &self.found {
            Some(attribute) => match Decimal::read(attribute.value.bytes()) {
                Ok(decimal) => Ok(Some(decimal)),
                Err(_) => Err(bad(self.attr, attribute)),
            },
            None => Ok(None),
        }
    }

    /// A moment that may be left out.
    pub fn optional_moment(&self) -> Result<Option<Moment>, Refusal>
        ensures { (at : ℕ)
            → Gives (option_map values.timed) result
            (value_at at (rows.optional self.now.attr values.moment) self.now.found) }
    {
        match &self.found {
            Some(attribute) => match Moment::read(attribute.value.bytes()) {
                Ok(moment) => Ok(Some(moment)),
                Err(_) => Err(bad(self.attr, attribute)),
            },
            None => Ok(None),
        }
    }

    /// The type of a CheckAlive, which may be left out.
    pub fn optional_ping(&self) -> Result<Option<Ping>, Refusal>
        ensures { (at : ℕ)
            → Gives (option_map of_ping) result
            (value_at at (rows.optional self.now.attr rows.ping) self.now.found) }
    {
        match &self.found {
            Some(attribute) => match number_in(self.attr, attribute, 1, 2)? {
                1 => Ok(Some(Ping::Ask)),
                _ => Ok(Some(Ping::Answer)),
            },
            None => Ok(None),
        }
    }

    /// A severity, which must be there.
    pub fn severity(&self, at: usize) -> Result<Severity, Refusal>
        ensures { Gives (λ severity. Some (of_severity severity)) result
            (value_at at (rows.required self.now.attr rows.severity) self.now.found) }
    {
        match &self.found {
            Some(attribute) => match number_in(self.attr, attribute, 1, 4)? {
                1 => Ok(Severity::Fatal),
                2 => Ok(Severity::Error),
                3 => Ok(Severity::Warning),
                _ => Ok(Severity::Info),
            },
            None => Err(missing(self.attr, at)),
        }
    }

    /// A state of a transfer, which must be there.
    pub fn transfer(&self, at: usize) -> Result<Transfer, Refusal>
        ensures { Gives (λ state. Some (of_transfer state)) result
            (value_at at (rows.required self.now.attr rows.transfer) self.now.found) }
    {
        match &self.found {
            Some(attribute) => match number_in(self.attr, attribute, 1, 3)? {
                1 => Ok(Transfer::NotStarted),
                2 => Ok(Transfer::Incomplete),
                _ => Ok(Transfer::Complete),
            },
            None => Err(missing(self.attr, at)),
        }
    }

    /// A quality that must be there.
    pub fn quality(&self, at: usize) -> Result<Quality, Refusal>
        ensures { Gives (λ quality. Some (of_quality quality)) result
            (value_at at (rows.required self.now.attr rows.quality) self.now.found) }
    {
        match &self.found {
            Some(attribute) => quality_in(self.attr, attribute),
            None => Err(missing(self.attr, at)),
        }
    }

    /// A quality that must be there where it is required.
    pub fn quality_if(&self, at: usize, required: bool) -> Result<Option<Quality>, Refusal>
        ensures { Gives (option_map of_quality) result
            (value_at at (rows.required_if required self.now.attr rows.quality) self.now.found) }
    {
        match &self.found {
            Some(attribute) => Ok(Some(quality_in(self.attr, attribute)?)),
            None => left_out(self.attr, at, required),
        }
    }

    /// Which side is up; it must be there where it is required.
    pub fn flip_if(&self, at: usize, required: bool) -> Result<Option<Flip>, Refusal>
        ensures { Gives (option_map of_flip) result
            (value_at at (rows.required_if required self.now.attr rows.flip) self.now.found) }
    {
        match &self.found {
            Some(attribute) => match number_in(self.attr, attribute, 0, 2)? {
                0 => Ok(Some(Flip::Unknown)),
                1 => Ok(Some(Flip::TopUp)),
                _ => Ok(Some(Flip::BottomUp)),
            },
            None => left_out(self.attr, at, required),
        }
    }
}

/// Reads bytes as a long number: 1 to 20 decimal digits, of a value that 64 bits hold.
fn read_long_number(bytes: &[u8]) -> Option<u64>
    ensures { result ≡ long_number_of bytes.now }
{
    if !is_digits(bytes, 1, 20) {
        return None;
    }
    let value = digits_value(bytes);
    if value <= u64::MAX as u128 {
        Some(value as u64)
    } else {
        None
    }
}

pub fn missing(attr: Attr, at: usize) -> Refusal
    ensures { result ≡ record { at = at; why = Fault.Missing attr } }
{
    Refusal {
        at,
        why: Fault::Missing(attr),
    }
}

fn bad(attr: Attr, attribute: &LentAttribute<'_>) -> Refusal
    ensures { result ≡ record { at = attribute.now.at; why = Fault.BadValue attr } }
{
    Refusal {
        at: attribute.at,
        why: Fault::BadValue(attr),
    }
}

/// No value, or a refusal where one is required.
fn left_out<T>(attr: Attr, at: usize, required: bool) -> Result<Option<T>, Refusal>
    ensures { LeftOut result at attr required }
{
    if required {
        return Err(missing(attr, at));
    }
    Ok(None)
}

pub fn plain_number_in(attr: Attr, attribute: &LentAttribute<'_>) -> Result<u32, Refusal>
    ensures { Gives (λ number. Some (values.numbered number)) result
        (value_or_bad attribute.now.at attr (values.read_as values.number attribute.now.value)) }
{
    match read_number(attribute.value.bytes()) {
        Some(number) => Ok(number),
        None => Err(bad(attr, attribute)),
    }
}

fn id_in(attr: Attr, attribute: &LentAttribute<'_>) -> Result<BoardId, Refusal>
    ensures { Gives (λ id. Some (values.identified id)) result
        (value_or_bad attribute.now.at attr (values.read_as values.identity attribute.now.value)) }
{
    match BoardId::read(attribute.value.bytes()) {
        Ok(id) => Ok(id),
        Err(_) => Err(bad(attr, attribute)),
    }
}

pub fn quality_in(attr: Attr, attribute: &LentAttribute<'_>) -> Result<Quality, Refusal>
    ensures { Gives (λ quality. Some (of_quality quality)) result
        (value_or_bad attribute.now.at attr (values.read_as rows.quality attribute.now.value)) }
{
    match number_in(attr, attribute, 0, 2)? {
        0 => Ok(Quality::Unknown),
        1 => Ok(Quality::Good),
        _ => Ok(Quality::Failed),
    }
}

/// A number from `low` to `high`.
fn number_in(attr: Attr, attribute: &LentAttribute<'_>, low: u32, high: u32) -> Result<u32, Refusal>
    ensures value { Gives (λ number. Some (values.numbered number)) result
        (value_or_bad attribute.now.at attr
        (values.read_as (values.choice low high) attribute.now.value)) }
    ensures within { IfOk result (λ number. (low ≤ number) × (number ≤ high)) }
{
    match read_number(attribute.value.bytes()) {
        Some(number) if low <= number && number <= high => Ok(number),
        _ => Err(bad(attr, attribute)),
    }
}
