//! Attributes by their names, and what their values are.

ghost use Rattle.std.specs.Prelude.{◌≡◌, option_map};
ghost use Rattle.config_service.specs.Names.{attr_text};
ghost use Rattle.config_service.specs.Said.{first_named, refusal};
ghost use Rattle.config_service.specs.declared.fault.ConfigFault.TheVariants as faults;

use crate::attr::ConfigAttr;
use crate::fault::{ConfigFault, ConfigRefusal};
use hermes_element::LentAttribute;

/// The first attribute of this name.
pub fn first_named<'a, 'b>(
    attributes: &'b [LentAttribute<'a>],
    attr: ConfigAttr,
) -> Option<&'b LentAttribute<'a>>
    ensures { option_map (λ found. found.now) result
        ≡ first_named (attr_text attr) attributes.now }
{
    for attribute in attributes {
        if attribute.name.bytes() == attr.text().as_bytes() {
            return Some(attribute);
        }
    }
    None
}

/// The refusal of an element that lacks an attribute.
pub fn missing(attr: ConfigAttr, at: usize) -> ConfigRefusal
    ensures { result ≡ refusal at (faults.Missing attr) }
{
    ConfigRefusal {
        at,
        why: ConfigFault::Missing(attr),
    }
}

/// The refusal of an attribute whose value is none of its kind.
pub fn bad(attr: ConfigAttr, attribute: &LentAttribute<'_>) -> ConfigRefusal
    ensures { result ≡ refusal attribute.now.at (faults.BadValue attr) }
{
    ConfigRefusal {
        at: attribute.at,
        why: ConfigFault::BadValue(attr),
    }
}
