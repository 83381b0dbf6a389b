//! The sub boards of a board: read from the first SubBoards among the children of its element, and
//! written as that child.

ghost use Rattle.std.specs.Prelude.{◌≡◌, ◌++◌, ◌∷◌, [], Some, IfOk, OnOk, codes, length, option_map};
ghost use Rattle.std.specs.Str.{bytes_eq};
ghost use Rattle.hermes_element.specs.Element.{trees_of};
ghost use Rattle.hermes_element.specs.Standing.{StillStands};
ghost use Rattle.hermes_element.specs.Canonical.{canonical_forest};
ghost use Rattle.hermes_horizontal.specs.Canonical.{rest_spelling, sub_children, sub_spelling};
ghost use Rattle.hermes_horizontal.specs.Fields.{Gives};
ghost use Rattle.hermes_horizontal.specs.Parts.{of_quality, subbed};
ghost use Rattle.hermes_horizontal.specs.Reading.{ReadsPart};
ghost use Rattle.hermes_horizontal.specs.Rows.{required, quality};
ghost use Rattle.hermes_horizontal.specs.Said.{value_at, first_named, sub_said, each_said, sbs_among, subs_listed, subs_in};
ghost use Rattle.hermes_horizontal.specs.Values as values;
ghost use Rattle.hermes_horizontal.specs.declared.attr.Attr.TheVariants as attrs;
ghost use Rattle.hermes_horizontal.specs.declared.fault.Fault.TheVariants as faults;
ghost use Rattle.hermes_horizontal.specs.declared.fault.MessageError.TheVariants as errors;

use crate::assign::{append, append_number, append_optional_text};
use crate::attr::Attr;
use crate::fault::{Fault, MessageError, Refusal};
use crate::field::{missing, plain_number_in, quality_in};
use crate::numbers::quality_number;
use board_record::{MOST_SUBS, SubBoard, SubBoards, SubError};
use hermes_element::{LentAttribute, LentChildren, LentElement};
use line_base::{Memory, Quality, Text};
use std::alloc::Global;

/// The sub boards that the first SubBoards of these children lists, or none where there is no such
/// child.
pub fn subs_in(alloc: Global, children: &LentChildren<'_>) -> Result<SubBoards, MessageError>
    ensures { ReadsPart (λ subs. subs) result (subs_in (trees_of children.now)) }
{
    for child in children.list() {
        if child.name.bytes() == &b"SubBoards"[..] {
            return subs_listed(alloc, child.at, child.children.list());
        }
    }
    Ok(SubBoards::new())
}

/// What a SubBoards at this place lists: refused where there are more than 256 SB, then each in
/// order, then where all are too large.
fn subs_listed(
    alloc: Global,
    at: usize,
    children: &[LentElement<'_>],
) -> Result<SubBoards, MessageError>
    ensures { ReadsPart (λ subs. subs) result (subs_listed at (sbs_among children.now)) }
{
    if count_sbs(children) > MOST_SUBS {
        return Err(bad_subs(at));
    }
    let subs = each_said(alloc, children)?;
    match SubBoards::of(alloc, subs) {
        Ok(subs) => Ok(subs),
        Err(SubError::Full) => Err(bad_subs(at)),
        Err(SubError::Memory) => Err(MessageError::Memory),
    }
}

/// How many children are called SB; others are passed over.
fn count_sbs(children: &[LentElement<'_>]) -> usize
    ensures { result ≡ length (sbs_among children.now) }
{
    let mut count = 0;
    for child in children {
        if is_sb(child) {
            count += 1;
        }
    }
    count
}

fn is_sb(child: &LentElement<'_>) -> bool
    ensures { result ≡ bytes_eq child.now.name (codes "SB") }
{
    child.name.bytes() == &b"SB"[..]
}

fn bad_subs(at: usize) -> MessageError
    ensures { result ≡ errors.Refused at (faults.BadValue attrs.SubBoards) }
{
    MessageError::Refused {
        at,
        why: Fault::BadValue(Attr::SubBoards),
    }
}

/// What each child of the name SB says, in order.
#[tactic(auto, using(crate::proofs::SubsRead::told_first, crate::proofs::SubsRead::told_past, crate::proofs::SubsRead::told_more, crate::proofs::SubsRead::told_refused, crate::proofs::SubsRead::told_all))]
fn each_said(alloc: Global, children: &[LentElement<'_>]) -> Result<Vec<SubBoard>, MessageError>
    ensures { ReadsPart (λ subs. subs.items) result (each_said (sbs_among children.now)) }
{
    let mut subs = Vec::new(alloc);
    for child in children {
        if is_sb(child) {
            let sub = sub_said(alloc, child)?;
            add(&mut subs, sub)?;
        }
    }
    Ok(subs)
}

fn add(subs: &mut Vec<SubBoard>, sub: SubBoard) -> Result<(), Memory>
    ensures { OnOk result (subs.new.items ≡ subs.old.items ++ sub ∷ []) }
{
    match subs.push(sub) {
        Ok(()) => Ok(()),
        Err(_) => Err(Memory),
    }
}

/// What an SB says. Its barcode is never refused, so it is copied last.
#[tactic(auto, using(crate::proofs::SubsRead::pos_refused, crate::proofs::SubsRead::state_refused, crate::proofs::SubsRead::sub_told))]
fn sub_said(alloc: Global, sb: &LentElement<'_>) -> Result<SubBoard, MessageError>
    ensures { ReadsPart (λ sub. sub) result (sub_said sb.now) }
{
    let attributes = sb.attributes.list();
    let pos = pos_said(attributes, sb.at)?;
    let state = state_said(attributes, sb.at)?;
    let barcode = barcode_said(alloc, attributes)?;
    Ok(SubBoard {
        pos,
        barcode,
        state,
    })
}

fn pos_said(attributes: &[LentAttribute<'_>], at: usize) -> Result<u32, Refusal>
    ensures { Gives (λ pos. Some (values.numbered pos)) result
        (value_at at (required attrs.Pos values.number) (first_named (codes "Pos") attributes.now)) }
{
    for attribute in attributes {
        if attribute.name.bytes() == &b"Pos"[..] {
            return plain_number_in(Attr::Pos, attribute);
        }
    }
    Err(missing(Attr::Pos, at))
}

fn state_said(attributes: &[LentAttribute<'_>], at: usize) -> Result<Quality, Refusal>
    ensures { Gives (λ state. Some (of_quality state)) result
        (value_at at (required attrs.St quality) (first_named (codes "St") attributes.now)) }
{
    for attribute in attributes {
        if attribute.name.bytes() == &b"St"[..] {
            return quality_in(Attr::St, attribute);
        }
    }
    Err(missing(Attr::St, at))
}

fn barcode_said(alloc: Global, attributes: &[LentAttribute<'_>]) -> Result<Option<Text>, Memory>
    ensures { IfOk result
        (λ text. option_map (λ a. a.value) (first_named (codes "Bc") attributes.now) ≡ text) }
{
    for attribute in attributes {
        if attribute.name.bytes() == &b"Bc"[..] {
            return Ok(Some(attribute.value.text(alloc)?));
        }
    }
    Ok(None)
}

/// Appends the end of the start tag of a board's element of this name, and what follows it: the
/// sub boards, where there are any.
pub fn append_subs(name: &[u8], subs: &SubBoards, to: &mut Vec<u8>) -> Result<(), Memory>
    ensures kept { StillStands to.old.items to.new.items }
    ensures written { OnOk result
        (to.new.items ≡ to.old.items ++ rest_spelling name.now (subbed subs.now)) }
{
    if subs.is_empty() {
        return append(to, b"/>");
    }
    append(to, b"><SubBoards>")?;
    append_each(subs.list(), to)?;
    append(to, b"</SubBoards></")?;
    append(to, name)?;
    append(to, b">")
}

fn append_each(subs: &[SubBoard], to: &mut Vec<u8>) -> Result<(), Memory>
    ensures kept { StillStands to.old.items to.new.items }
    ensures written { OnOk result
        (to.new.items ≡ to.old.items ++ canonical_forest (sub_children subs.now)) }
{
    for sub in subs {
        append_sub(sub, to)?;
    }
    Ok(())
}

fn append_sub(sub: &SubBoard, to: &mut Vec<u8>) -> Result<(), Memory>
    ensures kept { StillStands to.old.items to.new.items }
    ensures written { OnOk result (to.new.items ≡ to.old.items ++ sub_spelling sub.now) }
{
    append(to, b"<SB")?;
    append_number(Attr::Pos, sub.pos, to)?;
    append_optional_text(Attr::Bc, sub.barcode.as_ref(), to)?;
    append_number(Attr::St, quality_number(sub.state), to)?;
    append(to, b"/>")
}
