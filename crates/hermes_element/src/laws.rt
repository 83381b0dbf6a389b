//! The laws of elements and their spellings.

ghost use Rattle.std.specs.Prelude.{◌≡◌, ◌↔◌, ◌∷◌, ◌++◌, ℕ, List, length};
ghost use Rattle.hermes_element.specs.Element.{Tree};
ghost use Rattle.hermes_element.specs.Refusal.{IsRefused, IsRefusedBy};
ghost use Rattle.hermes_element.specs.Spelling.{Spells};
ghost use Rattle.hermes_element.specs.Canonical.{canonical, IsProper, IsWritable, unplaced};
ghost use Rattle.hermes_element.specs.declared.refusal.Why.{Why};

use crate::element::Element;
use crate::proper::parts_are_proper;

impl Element {
    /// What `write_element` writes of this element is read by `read_element` as this element, up
    /// to the places, if it is writable: there are at most four levels of elements, and each
    /// element has at most 64 attributes of which no two share a name.
    ///
    /// Nothing else is asked of it. The call states the law: it goes over the element's parts, and
    /// changes nothing.
    pub fn reads_back(&self)
        ensures { IsWritable self.now → (found : Tree) × Spells (canonical self.now) found
            × (unplaced found ≡ unplaced self.now) }
    {
        parts_are_proper(self);
        written_is_read();
    }

    /// Two writable elements are equal, up to the places, exactly where what is written of them
    /// is: different ones are never written as the same bytes.
    ///
    /// The call states the law: it goes over the parts of both, and changes nothing.
    pub fn spells_apart(&self, other: &Element)
        ensures { IsWritable self.now → IsWritable other.now
            → (canonical self.now ≡ canonical other.now) ↔
            (unplaced self.now ≡ unplaced other.now) }
    {
        parts_are_proper(self);
        parts_are_proper(other);
        one_spelling();
    }
}

/// Bytes spell at most one element.
pub fn spelled_once()
    ensures { (bytes : List ℕ) (one other : Tree) → Spells bytes one → Spells bytes other
        → one ≡ other }
{}

/// Bytes are refused at one place and for one reason at most.
pub fn refused_once()
    ensures { (bytes : List ℕ) (at place : ℕ) (why reason : Why) → IsRefused bytes at why
        → IsRefused bytes place reason → (at ≡ place) × (why ≡ reason) }
{}

/// No bytes both spell an element and are refused.
pub fn refused_or_spelled()
    ensures { (bytes : List ℕ) (at : ℕ) (why : Why) (tree : Tree) → IsRefused bytes at why
        → Spells bytes tree → ⊥ }
{}

/// Bytes with a 0 in them are refused, at their first 0 or before it.
pub fn zero_is_refused()
    ensures { (front rest : List ℕ) → IsRefusedBy (front ++ 0 ∷ rest) (length front) }
{}

/// The canonical spelling of a proper and writable element spells that element, up to the places.
/// An element of the program is proper by its types: `Element::reads_back` asks only that it be
/// writable.
pub fn written_is_read()
    ensures { (tree : Tree) → IsProper tree → IsWritable tree → (found : Tree)
        × Spells (canonical tree) found × (unplaced found ≡ unplaced tree) }
{}

/// Two elements that are proper and writable are equal, up to the places, exactly where their
/// canonical spellings are. Of elements of the program `Element::spells_apart` asks only that they
/// be writable.
pub fn one_spelling()
    ensures { (one other : Tree) → IsProper one → IsWritable one → IsProper other
        → IsWritable other → (canonical one ≡ canonical other) ↔ (unplaced one ≡ unplaced other) }
{}
