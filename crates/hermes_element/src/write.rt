ghost use Rattle.std.specs.Prelude.{◌≡◌, ◌++◌, OnOk, OnErr};
ghost use Rattle.std.specs.List.{flat_map, list_all};
ghost use Rattle.hermes_element.specs.Element.{Tree};
ghost use Rattle.hermes_element.specs.Spelling.{Spells};
ghost use Rattle.hermes_element.specs.Standing.{StillStands};
ghost use Rattle.hermes_element.specs.Canonical.{IsWritable, canonical, canonical_attribute, unplaced, escaped_byte, is_unescaped};

use crate::attribute::Attribute;
use crate::element::Element;
use line_base::Memory;

/// Appends the canonical spelling of an element.
pub fn write_element(element: &Element, to: &mut Vec<u8>) -> Result<(), Memory>
    ensures written { OnOk result (to.new.items ≡ to.old.items ++ canonical element.now) }
    ensures unchanged { OnErr result (to.new.items ≡ to.old.items) }
    // what is written of a writable element is read as that element, up to the places
    ensures reads_back { IsWritable element.now → (found : Tree)
        × Spells (canonical element.now) found × (unplaced found ≡ unplaced element.now) }
{
    element.reads_back();
    let mut spelling = Vec::new(*to.allocator());
    append_element(element, &mut spelling)?;
    append(to, spelling.as_slice())
}

fn append_element(element: &Element, to: &mut Vec<u8>) -> Result<(), Memory>
    ensures { OnOk result (to.new.items ≡ to.old.items ++ canonical element.now) }
{
    append(to, b"<")?;
    append(to, element.name.bytes())?;
    append_attributes(element.attributes.list(), to)?;
    let children = element.children.list();
    if children.is_empty() {
        return append(to, b"/>");
    }
    append(to, b">")?;
    for child in children {
        append_element(child, to)?;
    }
    append(to, b"</")?;
    append(to, element.name.bytes())?;
    append(to, b">")
}

fn append_attributes(attributes: &[Attribute], to: &mut Vec<u8>) -> Result<(), Memory>
    ensures { OnOk result
        (to.new.items ≡ to.old.items ++ flat_map canonical_attribute attributes.now) }
{
    for attribute in attributes {
        append_attribute(attribute.name.bytes(), attribute.value.bytes(), to)?;
    }
    Ok(())
}

/// Appends the canonical spelling of one attribute: a space, its name and its value. Where memory
/// is wanting, `to` is as it was.
pub fn write_attribute(name: &[u8], value: &[u8], to: &mut Vec<u8>) -> Result<(), Memory>
    ensures kept { StillStands to.old.items to.new.items }
    ensures written { OnOk result
        (to.new.items ≡ to.old.items
        ++ canonical_attribute (record { name = name.now; value = value.now; at = 0 })) }
    ensures unchanged { OnErr result (to.new.items ≡ to.old.items) }
{
    let before = to.len();
    match append_attribute(name, value, to) {
        Ok(()) => Ok(()),
        Err(Memory) => {
            to.truncate(before);
            Err(Memory)
        }
    }
}

/// The same, but where memory is wanting a part of it may stand there.
fn append_attribute(name: &[u8], value: &[u8], to: &mut Vec<u8>) -> Result<(), Memory>
    ensures kept { StillStands to.old.items to.new.items }
    ensures written { OnOk result
        (to.new.items ≡ to.old.items
        ++ canonical_attribute (record { name = name.now; value = value.now; at = 0 })) }
{
    append(to, b" ")?;
    append(to, name)?;
    append(to, b"=\"")?;
    append_value(value, to)?;
    append(to, b"\"")
}

fn append_value(value: &[u8], to: &mut Vec<u8>) -> Result<(), Memory>
    ensures kept { StillStands to.old.items to.new.items }
    ensures written { OnOk result (to.new.items ≡ to.old.items ++ flat_map escaped_byte value.now) }
{
    if are_unescaped(value) {
        return append(to, value);
    }
    for byte in value {
        append_byte(*byte, to)?;
    }
    Ok(())
}

/// Whether no byte of a value needs an escape, as in most of them.
fn are_unescaped(value: &[u8]) -> bool
    ensures { result ≡ list_all is_unescaped value.now }
{
    value.iter().all(|byte| is_unescaped(*byte))
}

#[tactic(auto, using(crate::proofs::Unescaped::unescaped_test))]
fn is_unescaped(byte: u8) -> bool
    ensures { result ≡ is_unescaped byte }
{
    !matches!(byte, b'&' | b'<' | b'>' | b'"' | b'\n' | b'\r' | b'\t')
}

fn append_byte(byte: u8, to: &mut Vec<u8>) -> Result<(), Memory>
    ensures kept { StillStands to.old.items to.new.items }
    ensures written { OnOk result (to.new.items ≡ to.old.items ++ escaped_byte byte) }
{
    match byte {
        b'&' => append(to, b"&amp;"),
        b'<' => append(to, b"&lt;"),
        b'>' => append(to, b"&gt;"),
        b'"' => append(to, b"&quot;"),
        b'\n' => append(to, b"&#10;"),
        b'\r' => append(to, b"&#13;"),
        b'\t' => append(to, b"&#9;"),
        _ => append(to, &[byte]),
    }
}

fn append(to: &mut Vec<u8>, bytes: &[u8]) -> Result<(), Memory>
    ensures kept { StillStands to.old.items to.new.items }
    ensures written { OnOk result (to.new.items ≡ to.old.items ++ bytes.now) }
    ensures unchanged { OnErr result (to.new.items ≡ to.old.items) }
{
    match to.extend_from_slice(bytes) {
        Ok(()) => Ok(()),
        Err(_) => Err(Memory),
    }
}
