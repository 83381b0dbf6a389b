//! Elements one in the other.

use hermes_element::{Attributes, ChildError, Children, Element};
use line_base::{Name, NameError};
use std::alloc::Global;

/// An element of so many levels, at least one.
pub fn nested(alloc: Global, levels: usize) -> Result<Element, ChildError> {
    let mut element = holding(alloc, Children::new(alloc))?;
    for _ in 1..levels {
        let mut children = Children::new(alloc);
        children.push(element)?;
        element = holding(alloc, children)?;
    }
    Ok(element)
}

/// An element `a` that holds these.
fn holding(alloc: Global, children: Children) -> Result<Element, ChildError> {
    match Name::read(alloc, b"a") {
        Ok(name) => Ok(Element {
            name,
            at: 0,
            attributes: Attributes::new(alloc),
            children,
        }),
        Err(NameError::BadName | NameError::Memory) => Err(ChildError::Memory),
    }
}
