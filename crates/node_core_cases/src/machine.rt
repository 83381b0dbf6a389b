//! The machines of the cases.

ghost use Rattle.std.specs.Prelude.{◌≡◌, ◌<◌, ◌^◌, true};
ghost use Rattle.line_base.specs.PlainText.{is_plain_text};

use line_base::{Memory, Text};
use node_core::{Node, NodeProfile};
use std::alloc::Global;

/// A machine with two places.
pub fn machine(
    alloc: Global,
    number: u32,
    name: &[u8],
    used: u64,
    bridge: bool,
) -> Result<Node, Memory>
    requires plain { is_plain_text name.now ≡ true }
    requires used { used < 2 ^ 48 }
{
    let machine = Text::plain(alloc, name)?;
    Node::new(
        alloc,
        NodeProfile {
            number,
            machine,
            lane: 1,
            capacity: 2,
            used,
            bridge,
        },
    )
}
