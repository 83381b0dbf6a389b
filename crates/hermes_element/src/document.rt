ghost use Rattle.std.specs.Prelude.{◌≡◌, ◌+◌, ◌<◌, ◌≤◌, ℕ, IfOk, OnOk, length, slice_index, ◌++◌, [], ◌∷◌};
ghost use Rattle.hermes_element.specs.Element.{add};
ghost use Rattle.hermes_element.specs.Steps.{ReadsDocument, ReadsBegin, ReadsProlog, ReadsDeclaration, ReadsRoot, ReadsTagEnd, ReadsEndTag, ReadsStart, ReadsMarkup, ReadsClose, AddsLast, IsNoBlank, IsSpan};
ghost use Rattle.hermes_element.specs.Plain.{is_declared};

use crate::bytes::{is_blank, is_declared};
use crate::lent::LentElement;
use crate::spans::{blanks_end, name_end};
use crate::stop::Stop;
use crate::tag::read_tag;
use line_base::is_name_start;
use std::alloc::Global;

/// Reads a document from the left up to its end, or to where it stops.
pub(crate) fn read_document<'a>(alloc: Global, bytes: &'a [u8]) -> Result<LentElement<'a>, Stop>
    ensures { ReadsDocument bytes.now result }
{
    let start = match root_start(bytes) {
        Ok(start) => start,
        Err(stop) => return Err(stop),
    };
    match read_root(alloc, bytes, start) {
        Ok((root, end)) => {
            if end < bytes.len() {
                return Err(Stop::Shape(end));
            }
            Ok(root)
        }
        Err(stop) => Err(stop),
    }
}

/// The index behind the root's `<`.
fn root_start(bytes: &[u8]) -> Result<usize, Stop>
    ensures reads { ReadsBegin bytes.now result }
    ensures within { IfOk result (λ to. (0 < to) × (to ≤ length bytes.now)) }
{
    if bytes.is_empty() {
        return Err(Stop::Shape(0));
    }
    if bytes[0] == b'<' {
        if bytes.len() > 1 && bytes[1] == b'?' {
            return match declaration_end(bytes) {
                Ok(declared) => prolog_end(bytes, declared),
                Err(stop) => Err(stop),
            };
        }
        return Ok(1);
    }
    if is_blank(bytes[0]) {
        return prolog_end(bytes, 0);
    }
    Err(Stop::Shape(0))
}

/// The index behind the `<` that follows blanks.
fn prolog_end(bytes: &[u8], from: usize) -> Result<usize, Stop>
    requires { from ≤ length bytes.now }
    ensures reads { ReadsProlog bytes.now from result }
    ensures within { IfOk result (λ to. (0 < to) × (to ≤ length bytes.now)) }
{
    let at = blanks_end(bytes, from);
    if at == bytes.len() || bytes[at] != b'<' {
        return Err(Stop::Shape(at));
    }
    Ok(at + 1)
}

/// The index behind the declaration, where the bytes begin with `<?`.
fn declaration_end(bytes: &[u8]) -> Result<usize, Stop>
    requires two { 1 < length bytes.now }
    requires first { slice_index bytes.now 0 ≡ 60 }
    requires second { slice_index bytes.now 1 ≡ 63 }
    ensures reads { ReadsDeclaration bytes.now result }
    ensures within { IfOk result (λ to. to ≤ length bytes.now) }
{
    if bytes.len() < 3 || bytes[2] != b'x' {
        return Err(Stop::Shape(2));
    }
    if bytes.len() < 4 || bytes[3] != b'm' {
        return Err(Stop::Shape(3));
    }
    if bytes.len() < 5 || bytes[4] != b'l' {
        return Err(Stop::Shape(4));
    }
    if bytes.len() < 6 || !is_blank(bytes[5]) {
        return Err(Stop::Shape(5));
    }
    let end = declared_end(bytes, 6);
    if end == bytes.len() || bytes[end] != b'?' {
        return Err(Stop::Shape(end));
    }
    if end + 1 == bytes.len() || bytes[end + 1] != b'>' {
        return Err(Stop::Shape(end + 1));
    }
    Ok(end + 2)
}

/// The end of the bytes from an index on that a declaration may hold.
fn declared_end(bytes: &[u8], at: usize) -> usize
    requires { at ≤ length bytes.now }
    ensures { IsSpan is_declared bytes.now at result }
{
    let mut end = at;
    while end < bytes.len() && is_declared(bytes[end]) {
        end += 1;
    }
    end
}

/// Reads the root from behind its `<`. Answers it and the index behind it.
fn read_root<'a>(
    alloc: Global,
    bytes: &'a [u8],
    at: usize,
) -> Result<(LentElement<'a>, usize), Stop>
    requires here { at ≤ length bytes.now }
    requires behind { 0 < at }
    ensures reads { ReadsRoot bytes.now at result }
    ensures within { IfOk result (λ read. read.1 ≤ length bytes.now) }
{
    let (mut root, is_empty, behind) = match read_start_tag(alloc, bytes, at, 0) {
        Ok(read) => read,
        Err(stop) => return Err(stop),
    };
    if is_empty {
        return Ok((root, behind));
    }
    let mut stack: Vec<LentElement<'a>> = Vec::new(alloc);
    let mut end = behind;
    loop {
        match read_markup(alloc, bytes, end, &mut root, &mut stack) {
            Ok((has_ended, next)) => {
                if has_ended {
                    return Ok((root, next));
                }
                end = next;
            }
            Err(stop) => return Err(stop),
        }
    }
}

/// Reads the next tag inside the root, where `stack` are the open elements below it, outermost
/// first. Answers whether the root has ended, and the index behind the tag.
fn read_markup<'a>(
    alloc: Global,
    bytes: &'a [u8],
    at: usize,
    root: &mut LentElement<'a>,
    stack: &mut Vec<LentElement<'a>>,
) -> Result<(bool, usize), Stop>
    requires { at ≤ length bytes.now }
    ensures reads { ReadsMarkup bytes.now at (root.old ∷ stack.old.items) root.new stack.new.items result }
    ensures within { IfOk result (λ read. (at < read.1) × (read.1 ≤ length bytes.now)) }
{
    let open_at = blanks_end(bytes, at);
    if open_at == bytes.len() || bytes[open_at] != b'<' {
        return Err(Stop::Shape(open_at));
    }
    if open_at + 1 < bytes.len() && bytes[open_at + 1] == b'/' {
        return read_close(bytes, open_at + 2, root, stack);
    }
    let (element, is_empty, end) = match read_start_tag(
        alloc,
        bytes,
        open_at + 1,
        stack.as_slice().len() + 1,
    ) {
        Ok(read) => read,
        Err(stop) => return Err(stop),
    };
    if is_empty {
        return match add_last(root, stack, element) {
            Ok(()) => Ok((false, end)),
            Err(stop) => Err(stop),
        };
    }
    match stack.push(element) {
        Ok(()) => Ok((false, end)),
        Err(_) => Err(Stop::Memory),
    }
}

/// Reads the end tag of the innermost open element from its name on.
fn read_close<'a>(
    bytes: &[u8],
    at: usize,
    root: &mut LentElement<'a>,
    stack: &mut Vec<LentElement<'a>>,
) -> Result<(bool, usize), Stop>
    requires { at ≤ length bytes.now }
    ensures reads { ReadsClose bytes.now at (root.old ∷ stack.old.items) root.new stack.new.items result }
    ensures within { IfOk result (λ read. (at < read.1) × (read.1 ≤ length bytes.now)) }
{
    let top = match stack.pop() {
        Some(top) => top,
        None => {
            return match read_end_tag(bytes, at, &*root) {
                Ok(end) => Ok((true, end)),
                Err(stop) => Err(stop),
            };
        }
    };
    let end = match read_end_tag(bytes, at, &top) {
        Ok(end) => end,
        Err(stop) => return Err(stop),
    };
    match add_last(root, stack, top) {
        Ok(()) => Ok((false, end)),
        Err(stop) => Err(stop),
    }
}

/// Adds an element as the last child of the innermost open one.
#[inline(always)]
fn add_last<'a>(
    root: &mut LentElement<'a>,
    stack: &mut Vec<LentElement<'a>>,
    element: LentElement<'a>,
) -> Result<(), Stop>
    ensures { AddsLast (root.old ∷ stack.old.items) element.entry
        (root.new ∷ stack.new.items) result }
{
    let count = stack.as_slice().len();
    if count == 0 {
        return match root.children.push(element) {
            Ok(()) => Ok(()),
            Err(_) => Err(Stop::Memory),
        };
    }
    match stack[count - 1].children.push(element) {
        Ok(()) => Ok(()),
        Err(_) => Err(Stop::Memory),
    }
}

/// Reads a start tag from its name on, where so many elements are open. Answers its element,
/// whether it ends with the tag, and the index behind the tag.
fn read_start_tag<'a>(
    alloc: Global,
    bytes: &'a [u8],
    at: usize,
    open_count: usize,
) -> Result<(LentElement<'a>, bool, usize), Stop>
    requires here { at ≤ length bytes.now }
    requires behind { 0 < at }
    requires start { at < length bytes.now → slice_index bytes.now at ≡ 47 → open_count ≡ 0 }
    ensures reads { ReadsStart bytes.now open_count at result }
    ensures within { IfOk result (λ read. (at < read.2) × (read.2 ≤ length bytes.now)) }
{
    let (element, tag_end) = match read_tag(alloc, bytes, at, open_count) {
        Ok(read) => read,
        Err(stop) => return Err(stop),
    };
    match read_tag_end(bytes, tag_end) {
        Ok((is_empty, end)) => Ok((element, is_empty, end)),
        Err(stop) => Err(stop),
    }
}

/// Reads the end of a start tag. Answers whether the element ends with it, and the index behind
/// it.
fn read_tag_end(bytes: &[u8], at: usize) -> Result<(bool, usize), Stop>
    requires here { at ≤ length bytes.now }
    requires over { IsNoBlank bytes.now at }
    ensures reads { ReadsTagEnd bytes.now at result }
    ensures within { IfOk result (λ read. (at < read.1) × (read.1 ≤ length bytes.now)) }
{
    if at == bytes.len() {
        return Err(Stop::Shape(at));
    }
    if bytes[at] == b'>' {
        return Ok((false, at + 1));
    }
    if bytes[at] != b'/' {
        return Err(Stop::Shape(at));
    }
    if at + 1 == bytes.len() || bytes[at + 1] != b'>' {
        return Err(Stop::Shape(at + 1));
    }
    Ok((true, at + 2))
}

/// Reads the end tag of an element from its name on. Answers the index behind it.
fn read_end_tag(bytes: &[u8], at: usize, element: &LentElement<'_>) -> Result<usize, Stop>
    requires here { at ≤ length bytes.now }
    ensures reads { ReadsEndTag bytes.now at element.now result }
    ensures within { IfOk result (λ to. (at < to) × (to ≤ length bytes.now)) }
{
    if at == bytes.len() || !is_name_start(bytes[at]) {
        return Err(Stop::Shape(at));
    }
    let name_end = name_end(bytes, at);
    let end = blanks_end(bytes, name_end);
    if end == bytes.len() || bytes[end] != b'>' {
        return Err(Stop::Shape(end));
    }
    if &bytes[at..name_end] != element.name.bytes() {
        return Err(Stop::EndName(at));
    }
    Ok(end + 1)
}
