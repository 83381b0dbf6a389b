//! Elements that are lent by the bytes that spell them. No name is copied, and no value whose
//! bytes are plain.
ghost use Rattle.std.specs.Prelude.{◌≡◌, ℕ, List, [], ◌∷◌, ◌++◌, IfOk, OnOk, OnErr};
ghost use Rattle.line_base.specs.Name.{IsName};
ghost use Rattle.line_base.specs.Text.{IsText};
ghost use Rattle.hermes_element.specs.Element.{none, add, trees_of};

use crate::tag::MOST_OPEN;
use line_base::{Memory, Name, Text};
use std::alloc::Global;
use std::marker::Model;

/// How many attributes an element has room for from its first one on. No message's row of the
/// table asks for more, and to grow the list twice cost more than the room does.
const ROOM_FOR_ATTRIBUTES: usize = 16;

/// The same of an element in which no other can lie. A message has such elements by the hundred,
/// each with three attributes at most.
const ROOM_IN_A_LIST: usize = 4;

/// An element, lent by its bytes. `at` is the index of its `<`.
#[derive(Drop)]
#[cycle(lent)]
pub struct LentElement<'a> {
    pub name: LentName<'a>,
    pub at: usize,
    pub attributes: LentAttributes<'a>,
    pub children: LentChildren<'a>,
}

/// The children of a lent element, in order.
#[derive(Drop)]
#[cycle(lent)]
pub struct LentChildren<'a> {
    list: Vec<LentElement<'a>>,
}

impl<'a> Model for LentElement<'a> {
    ghost use Rattle.std.proofs.Common.{arith};
    ghost use Rattle.hermes_element.specs.Element.{Tree, tree_code, tree_size};

    ghost Value = { Tree };

    ghost coded = { tree_code };

    ghost view = { λ a. record {
      name = a.name;
      at = a.at;
      attributes = a.attributes;
      children = a.children;
    } };

    ghost size = { tree_size };

    ghost size_decreases = { λ a h. omega arith };
}

impl<'a> Model for LentChildren<'a> {
    ghost use Rattle.hermes_element.specs.Element.{Forest, forest_code, forest_of, forest_size};
    ghost use Rattle.std.proofs.Common.{arith};
    ghost use Rattle.hermes_element.specs.Falls.{most_le-forest_size};

    ghost Value = { Forest };

    ghost coded = { forest_code };

    ghost view = { λ children. forest_of children.list.items };

    ghost size = { forest_size };

    ghost size_decreases = { λ a h. omega (arith, most_le-forest_size a.list.items) };
}

impl<'a> LentChildren<'a> {
    /// No children yet.
    pub(crate) fn new(alloc: Global) -> LentChildren<'a>
        ensures { result ≡ none }
    {
        LentChildren {
            list: Vec::new(alloc),
        }
    }

    /// Adds a child at the end.
    #[tactic(auto, using(crate::proofs::Forests::pushing))]
    pub(crate) fn push(&mut self, child: LentElement<'a>) -> Result<(), Memory>
        ensures ok { OnOk result (self.new ≡ add self.old child.entry) }
        ensures memory { OnErr result (self.new ≡ self.old) }
    {
        match self.list.push(child) {
            Ok(()) => Ok(()),
            Err(_) => Err(Memory),
        }
    }

    /// The children in order.
    pub fn list(&self) -> &[LentElement<'a>]
        ensures { result.now ≡ trees_of self.now }
    {
        self.list.as_slice()
    }

    /// The children themselves.
    pub fn into_list(self) -> Vec<LentElement<'a>>
        ensures { result.items ≡ trees_of self.entry }
    {
        self.list
    }
}

/// An attribute of a lent element. `at` is the index of the first byte of its value.
#[derive(Drop)]
pub struct LentAttribute<'a> {
    pub name: LentName<'a>,
    pub value: LentValue<'a>,
    pub at: usize,
}

impl<'a> Model for LentAttribute<'a> {
    ghost use Rattle.hermes_element.specs.declared.attribute.Attribute.{Attribute};
    ghost use Rattle.hermes_element.specs.Element.{attribute_code};

    ghost Value = { Attribute };

    ghost coded = { attribute_code };

    ghost view = { λ a. record { name = a.name; value = a.value; at = a.at } };
}

/// The attributes of a lent element, in order.
#[derive(Drop)]
pub struct LentAttributes<'a> {
    list: Vec<LentAttribute<'a>>,
}

impl<'a> Model for LentAttributes<'a> {
    ghost use Rattle.std.specs.Prelude.{List};
    ghost use Rattle.std.specs.Coded.{coded_list};
    ghost use Rattle.hermes_element.specs.declared.attribute.Attribute.{Attribute};
    ghost use Rattle.hermes_element.specs.Element.{attribute_code};

    ghost Value = { List Attribute };

    ghost coded = { coded_list attribute_code };

    ghost view = { λ attributes. attributes.list.items };
}

impl<'a> LentAttributes<'a> {
    /// No attributes yet.
    pub(crate) fn new(alloc: Global) -> LentAttributes<'a>
        ensures { result ≡ [] }
    {
        LentAttributes {
            list: Vec::new(alloc),
        }
    }

    /// Adds an attribute at the end, of an element around which so many are open. The first one
    /// makes room for others.
    pub(crate) fn push(
        &mut self,
        attribute: LentAttribute<'a>,
        open_count: usize,
    ) -> Result<(), Memory>
        ensures ok { OnOk result (self.new ≡ self.old ++ attribute.entry ∷ []) }
        ensures memory { OnErr result (self.new ≡ self.old) }
    {
        if self.list.is_empty() && self.list.reserve(room_for_attributes(open_count)).is_err() {
            return Err(Memory);
        }
        match self.list.push(attribute) {
            Ok(()) => Ok(()),
            Err(_) => Err(Memory),
        }
    }

    /// The attributes in order.
    pub fn list(&self) -> &[LentAttribute<'a>]
        ensures { result.now ≡ self.now }
    {
        self.list.as_slice()
    }

    /// The attributes themselves.
    pub fn into_list(self) -> Vec<LentAttribute<'a>>
        ensures { result.items ≡ self.entry }
    {
        self.list
    }
}

/// How many attributes to make room for in an element around which so many are open.
fn room_for_attributes(open_count: usize) -> usize {
    if open_count < MOST_OPEN - 1 {
        ROOM_FOR_ATTRIBUTES
    } else {
        ROOM_IN_A_LIST
    }
}

/// The name of an element or attribute, lent by the bytes that it stands in.
#[derive(Drop)]
pub struct LentName<'a> {
    bytes: &'a [u8],
}

impl<'a> Model for LentName<'a> {
    ghost Value = { List ℕ };

    ghost view = { λ name. name.bytes.now };

    ghost invariant = { λ name. IsName name.bytes.now };
}

impl<'a> LentName<'a> {
    /// The name that these bytes are.
    pub(crate) fn of(bytes: &'a [u8]) -> LentName<'a>
        requires { IsName bytes.now }
        ensures { result ≡ bytes.now }
    {
        LentName { bytes }
    }

    /// Its bytes.
    #[inline]
    pub fn bytes(&self) -> &'a [u8]
        ensures bytes { result.now ≡ self.now }
        ensures name { IsName self.now }
    {
        self.bytes
    }

    /// An equal name of its own.
    pub fn own(&self, alloc: Global) -> Result<Name, Memory>
        ensures { IfOk result (λ name. name ≡ self.now) }
    {
        Name::of(alloc, self.bytes)
    }
}

/// The value of an attribute: lent where it is of plain bytes, else with bytes of its own. Plain
/// are the ASCII bytes that stand for themselves.
#[derive(Drop)]
pub struct LentValue<'a> {
    bytes: ValueBytes<'a>,
}

#[derive(Drop)]
enum ValueBytes<'a> {
    Lent(&'a [u8]),
    Own(Vec<u8>),
}

impl<'a> Model for LentValue<'a> {
    ghost use Rattle.std.specs.Prelude.{ℕ, List};
    ghost use Rattle.line_base.specs.Text.{IsText};
    ghost use Rattle.hermes_element.specs.Lent.{bytes_of};

    ghost Value = { List ℕ };

    ghost view = { λ value. bytes_of value.bytes };

    ghost invariant = { λ value. IsText (bytes_of value.bytes) };
}

impl<'a> LentValue<'a> {
    /// The value that these bytes are.
    pub(crate) fn of(bytes: &'a [u8]) -> LentValue<'a>
        requires { IsText bytes.now }
        ensures { result ≡ bytes.now }
    {
        LentValue {
            bytes: ValueBytes::Lent(bytes),
        }
    }

    /// The same of bytes of its own.
    pub(crate) fn of_own(bytes: Vec<u8>) -> LentValue<'a>
        requires { IsText bytes.items }
        ensures { result ≡ bytes.items }
    {
        LentValue {
            bytes: ValueBytes::Own(bytes),
        }
    }

    /// Its bytes.
    #[inline]
    pub fn bytes(&self) -> &[u8]
        ensures bytes { result.now ≡ self.now }
        ensures text { IsText self.now }
    {
        match &self.bytes {
            ValueBytes::Lent(bytes) => bytes,
            ValueBytes::Own(bytes) => bytes.as_slice(),
        }
    }

    /// The text that it is.
    pub fn text(&self, alloc: Global) -> Result<Text, Memory>
        ensures { IfOk result (λ text. text ≡ self.now) }
    {
        Text::of(alloc, self.bytes())
    }
}
