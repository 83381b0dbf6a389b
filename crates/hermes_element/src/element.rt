ghost use Rattle.std.specs.Prelude.{◌≡◌, ◌≤◌, OnOk, OnErr};
ghost use Rattle.hermes_element.specs.Element.{none, add, trees_of};
ghost use Rattle.hermes_element.specs.Canonical.{depth_of};
ghost use Rattle.hermes_element.specs.Adding.{Adds};

use crate::attribute::Attributes;
use crate::refusal::ChildError;
use line_base::{Memory, Name};
use std::alloc::Global;
use std::marker::Model;

/// The most levels of elements that the children of an element have, so that an element has one
/// more. It is what a document may have, and what bounds the calls that go down an element.
const MOST_LEVELS_BELOW: usize = 3;

/// An element, of at most four levels. `at` is the index of its `<`.
#[derive(Drop)]
#[cycle(element)]
pub struct Element {
    pub name: Name,
    pub at: usize,
    pub attributes: Attributes,
    pub children: Children,
}

/// The children of an element, in order. They have at most three levels of elements.
#[derive(Drop)]
#[cycle(element)]
pub struct Children {
    list: Vec<Element>,
    levels: usize,
}

impl Model for Element {
    ghost use Rattle.std.proofs.Common.{arith};
    ghost use Rattle.hermes_element.specs.Element.{Tree, tree_code, tree_size};

    ghost Value = { Tree };

    ghost coded = { tree_code };

    ghost view = { λ a. record {
      name = a.name;
      at = a.at;
      attributes = a.attributes;
      children = a.children;
    } };

    ghost size = { tree_size };

    ghost size_decreases = { λ a h. omega arith };
}

impl Model for Children {
    ghost use Rattle.hermes_element.specs.Element.{Forest, forest_code, forest_of, forest_size};
    ghost use Rattle.hermes_element.specs.Levels.{HasLevels};
    ghost use Rattle.std.proofs.Common.{arith};
    ghost use Rattle.hermes_element.specs.Falls.{most_le-forest_size};

    ghost Value = { Forest };

    ghost coded = { forest_code };

    ghost view = { λ children. forest_of children.list.items };

    ghost invariant = { λ children. HasLevels (forest_of children.list.items) children.levels };

    ghost size = { forest_size };

    ghost size_decreases = { λ a h. omega (arith, most_le-forest_size a.list.items) };
}

impl Children {
    /// No children yet.
    pub fn new(alloc: Global) -> Children
        ensures { result ≡ none }
    {
        Children {
            list: Vec::new(alloc),
            levels: 0,
        }
    }

    /// Adds a child at the end, or refuses it as too deep where it has four levels of elements
    /// itself, or where memory is wanting. What is refused is dropped.
    pub fn push(&mut self, child: Element) -> Result<(), ChildError>
        ensures { Adds self.old child self.new result }
    {
        if child.children.levels() == MOST_LEVELS_BELOW {
            return Err(ChildError::Deep);
        }
        match self.add(child) {
            Ok(()) => Ok(()),
            Err(Memory) => Err(ChildError::Memory),
        }
    }

    /// Adds a child of at most three levels at the end.
    #[tactic(auto, using(crate::proofs::Forests::pushing))]
    pub(crate) fn add(&mut self, child: Element) -> Result<(), Memory>
        requires { depth_of child.children ≤ 2 }
        ensures ok { OnOk result (self.new ≡ add self.old child) }
        ensures memory { OnErr result (self.new ≡ self.old) }
    {
        let levels = child.children.levels() + 1;
        match self.list.push(child) {
            Ok(()) => {}
            Err(_) => return Err(Memory),
        }
        self.levels = self.levels.max(levels);
        Ok(())
    }

    /// How many levels of elements there are.
    pub fn levels(&self) -> usize
        ensures levels { result ≡ depth_of self.now }
        ensures few { result ≤ 3 }
    {
        self.levels
    }

    /// The children in order.
    pub fn list(&self) -> &[Element]
        ensures { result.now ≡ trees_of self.now }
    {
        self.list.as_slice()
    }
}
