//! The root of a message, by what every message of both channels has.

ghost use Rattle.hermes_element.specs.Element.{trees_of};
ghost use Rattle.hermes_horizontal.specs.Opened.{HasOnly, OpensRoot};

use crate::attr::Attr;
use crate::fault::{Fault, Refusal};
use crate::find::find_one;
use hermes_element::{LentChildren, LentElement};
use line_base::Moment;

/// When a message was sent, where it tells, and the one element in its root.
pub struct Opened<'a> {
    pub stamp: Option<Moment>,
    pub child: LentElement<'a>,
}

/// Opens a root: refused, in this order, where its name isn't `Hermes`, where its Timestamp is no
/// moment, and where it doesn't have exactly one child.
pub fn open_root(root: LentElement<'_>) -> Result<Opened<'_>, Refusal>
    ensures { OpensRoot root.entry result }
{
    let LentElement {
        name,
        at,
        attributes,
        children,
    } = root;
    if name.bytes() != &b"Hermes"[..] {
        return Err(Refusal {
            at,
            why: Fault::Root,
        });
    }
    let [stamp] = &find_one(attributes, Attr::Timestamp);
    let stamp = stamp.optional_moment()?;
    match only_child(children) {
        Some(child) => Ok(Opened { stamp, child }),
        None => Err(Refusal {
            at,
            why: Fault::Count,
        }),
    }
}

/// The one child, where there is exactly one.
fn only_child(children: LentChildren<'_>) -> Option<LentElement<'_>>
    ensures { HasOnly (trees_of children.entry) result }
{
    let mut list = children.into_list();
    let child = list.pop()?;
    if list.is_empty() { Some(child) } else { None }
}
