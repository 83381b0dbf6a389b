//! What the types of an element's parts say of them. Each function states it: it goes over the
//! part, and changes nothing.

ghost use Rattle.std.specs.List.{AllByRecursion};
ghost use Rattle.hermes_element.specs.Canonical.{IsProper, IsProperAttribute};

use crate::attribute::Attribute;
use crate::element::Element;

/// The names in an element are names and its values are texts, at all depths.
pub(crate) fn parts_are_proper(element: &Element)
    ensures { IsProper element.now }
{
    let _name = element.name.bytes();
    attributes_are_proper(element.attributes.list());
    let children = element.children.list();
    for child in children {
        parts_are_proper(child);
    }
}

fn attributes_are_proper(attributes: &[Attribute])
    ensures { AllByRecursion IsProperAttribute attributes.now }
{
    for attribute in attributes {
        let _name = attribute.name.bytes();
        let _value = attribute.value.bytes();
    }
}
