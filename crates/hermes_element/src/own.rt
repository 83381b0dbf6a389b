//! Elements of their own, made of lent ones.
ghost use Rattle.std.specs.Prelude.{◌≡◌, ◌≤◌, IfOk};
ghost use Rattle.hermes_element.specs.Canonical.{depth_of};

use crate::attribute::{Attribute, Attributes};
use crate::element::{Children, Element};
use crate::lent::{LentAttribute, LentAttributes, LentChildren, LentElement};
use line_base::Memory;
use std::alloc::Global;

impl<'a> LentElement<'a> {
    /// An equal element of its own. It has at most four levels, as what is read has.
    #[cycle(own)]
    pub fn own(&self, alloc: Global) -> Result<Element, Memory>
        requires { depth_of self.now.children ≤ 3 }
        ensures { IfOk result (λ element. element ≡ self.now) }
    {
        let name = self.name.own(alloc)?;
        let attributes = self.attributes.own(alloc)?;
        let children = self.children.own(alloc)?;
        Ok(Element {
            name,
            at: self.at,
            attributes,
            children,
        })
    }
}

impl<'a> LentChildren<'a> {
    /// Equal children of their own. They have at most three levels, as those of what is read have.
    #[cycle(own)]
    pub fn own(&self, alloc: Global) -> Result<Children, Memory>
        requires { depth_of self.now ≤ 3 }
        ensures { IfOk result (λ children. children ≡ self.now) }
    {
        let mut children = Children::new(alloc);
        for child in self.list() {
            children.add(child.own(alloc)?)?;
        }
        Ok(children)
    }
}

impl<'a> LentAttributes<'a> {
    /// Equal attributes of their own.
    pub fn own(&self, alloc: Global) -> Result<Attributes, Memory>
        ensures { IfOk result (λ attributes. attributes ≡ self.now) }
    {
        let mut attributes = Attributes::new(alloc);
        for attribute in self.list() {
            attributes.push(attribute.own(alloc)?)?;
        }
        Ok(attributes)
    }
}

impl<'a> LentAttribute<'a> {
    /// An equal attribute of its own.
    pub fn own(&self, alloc: Global) -> Result<Attribute, Memory>
        ensures { IfOk result (λ attribute. attribute ≡ self.now) }
    {
        let name = self.name.own(alloc)?;
        let value = self.value.text(alloc)?;
        Ok(Attribute {
            name,
            value,
            at: self.at,
        })
    }
}
