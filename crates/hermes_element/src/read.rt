ghost use Rattle.std.specs.Prelude.{◌≡◌, ◌≤◌, ℕ, Err, IfOk};
ghost use Rattle.hermes_element.specs.Canonical.{depth_of};
ghost use Rattle.hermes_element.specs.Element.{Tree};
ghost use Rattle.hermes_element.specs.Spelling.{ReadsElement, Spells, AnswersElement, AnswersRefusal};
ghost use Rattle.hermes_element.specs.Refusal.{IsRefused, shape_reason, markup_reason};
ghost use Rattle.hermes_element.specs.Machine.{outcome};
ghost use Rattle.hermes_element.specs.Steps.{ReadsOutcome};
ghost use Rattle.hermes_element.specs.declared.refusal.ElementError.TheVariants as errors;
ghost use Rattle.hermes_element.specs.declared.refusal.Why.{Why};

use crate::document::read_document;
use crate::element::Element;
use crate::lent::LentElement;
use crate::refusal::{ElementError, Why};
use crate::shape::shape_stop;
use crate::stop::Stop;
use std::alloc::Global;

/// Reads the bytes of a document as an element.
///
/// `Refused` says at which index, and why, the bytes spell none. `Memory` says that memory was
/// wanting for the element, or for the lent one that it is made of.
pub fn read_element(alloc: Global, bytes: &[u8]) -> Result<Element, ElementError>
    ensures answer { ReadsElement bytes.now result }
    ensures spelled { (tree : Tree) → Spells bytes.now tree → AnswersElement result tree }
    ensures refused { (at : ℕ) (reason : Why) → IsRefused bytes.now at reason
        → AnswersRefusal result at reason }
{
    match read_lent(alloc, bytes) {
        Ok(lent) => match lent.own(alloc) {
            Ok(element) => Ok(element),
            Err(_) => Err(ElementError::Memory),
        },
        Err(error) => Err(error),
    }
}

/// Reads the bytes of a document as an element that they lend.
///
/// The same as `read_element`, but that no name is copied, and of the values only those that have
/// an escape, a blank other than a space, or a character of several bytes.
pub fn read_lent<'a>(alloc: Global, bytes: &'a [u8]) -> Result<LentElement<'a>, ElementError>
    ensures answer { ReadsElement bytes.now result }
    ensures spelled { (tree : Tree) → Spells bytes.now tree → AnswersElement result tree }
    ensures refused { (at : ℕ) (reason : Why) → IsRefused bytes.now at reason
        → AnswersRefusal result at reason }
    ensures levels { IfOk result (λ root. depth_of root.children ≤ 3) }
{
    read_by_outcome(alloc, bytes)
}

/// The same, as its outcome says.
fn read_by_outcome<'a>(alloc: Global, bytes: &'a [u8]) -> Result<LentElement<'a>, ElementError>
    ensures { ReadsOutcome bytes.now result }
{
    match read_document(alloc, bytes) {
        Ok(element) => Ok(element),
        Err(Stop::Shape(at)) => Err(shape_refusal(bytes, at)),
        Err(Stop::Memory) => Err(ElementError::Memory),
        Err(Stop::EndName(at)) => Err(fault_refusal(bytes, at, Why::EndName)),
        Err(Stop::Repeated(at)) => Err(fault_refusal(bytes, at, Why::Repeated)),
        Err(Stop::Reference(at)) => Err(fault_refusal(bytes, at, Why::Reference)),
        Err(Stop::LongValue(at)) => Err(fault_refusal(bytes, at, Why::LongValue)),
        Err(Stop::Deep(at)) => Err(fault_refusal(bytes, at, Why::Deep)),
        Err(Stop::Many(at)) => Err(fault_refusal(bytes, at, Why::Many)),
    }
}

/// The refusal where a check fails at this index: there, unless the bytes leave the plain form.
fn fault_refusal(bytes: &[u8], at: usize, why: Why) -> ElementError
    requires { (outcome bytes.now).built ≡ Err (at, why) }
    ensures { ReadsOutcome bytes.now (Err result) }
{
    match shape_stop(bytes) {
        Some(stop) => shape_refusal(bytes, stop),
        None => ElementError::Refused { at, why },
    }
}

/// The refusal where the bytes leave the plain form at this index.
fn shape_refusal(bytes: &[u8], at: usize) -> ElementError
    ensures { result ≡ errors.Refused at (shape_reason bytes.now at) }
{
    let why = shape_reason(bytes, at);
    ElementError::Refused { at, why }
}

fn shape_reason(bytes: &[u8], at: usize) -> Why
    ensures { result ≡ shape_reason bytes.now at }
{
    if at == bytes.len() {
        return Why::Unended;
    }
    if at == 0 || at > bytes.len() || bytes[at - 1] != b'<' {
        return Why::Character;
    }
    markup_reason(&bytes[at..])
}

/// What stands behind a `<`, where no name does.
fn markup_reason(rest: &[u8]) -> Why
    ensures { result ≡ markup_reason rest.now }
{
    if rest.starts_with(b"!--") {
        return Why::Comment;
    }
    if rest.starts_with(b"![CDATA[") {
        return Why::CData;
    }
    if rest.starts_with(b"!DOCTYPE") {
        return Why::Doctype;
    }
    if rest.starts_with(b"?") {
        return Why::Instruction;
    }
    Why::Character
}
