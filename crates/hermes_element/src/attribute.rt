ghost use Rattle.std.specs.Prelude.{◌≡◌, List, [], ◌∷◌, ◌++◌, OnOk, OnErr};

use line_base::{Memory, Name, Text};
use std::alloc::Global;
use std::marker::Model;

/// An attribute of an element. `at` is the index of the first byte of its value.
#[derive(Debug, Drop)]
pub struct Attribute {
    pub name: Name,
    pub value: Text,
    pub at: usize,
}

/// The attributes of an element, in order.
#[derive(Debug, Drop)]
pub struct Attributes {
    list: Vec<Attribute>,
}

impl Model for Attributes {
    ghost use Rattle.std.specs.Prelude.{List};
    ghost use Rattle.std.specs.Coded.{coded_list};
    ghost use Rattle.hermes_element.specs.declared.attribute.Attribute.{Attribute};
    ghost use Rattle.hermes_element.specs.Element.{attribute_code};

    ghost Value = { List Attribute };

    ghost coded = { coded_list attribute_code };

    ghost view = { λ attributes. attributes.list.items };
}

impl Attributes {
    /// No attributes yet.
    pub fn new(alloc: Global) -> Attributes
        ensures { result ≡ [] }
    {
        Attributes {
            list: Vec::new(alloc),
        }
    }

    /// Adds an attribute at the end.
    pub fn push(&mut self, attribute: Attribute) -> Result<(), Memory>
        ensures ok { OnOk result (self.new ≡ self.old ++ attribute ∷ []) }
        ensures memory { OnErr result (self.new ≡ self.old) }
    {
        match self.list.push(attribute) {
            Ok(()) => Ok(()),
            Err(_) => Err(Memory),
        }
    }

    /// The attributes in order.
    pub fn list(&self) -> &[Attribute]
        ensures { result.now ≡ self.now }
    {
        self.list.as_slice()
    }
}
