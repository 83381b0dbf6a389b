//! The links of a line by their number: link k lies between machines k and k + 1.

ghost use Rattle.std.specs.Prelude.{◌≡◌, ◌+◌, ◌<◌, IfNone, IfSome, length};
ghost use Rattle.line_step.specs.World.{IsNoLink, end_of, link_of};

use line_base::{Role, Side};
use line_link::Link;

/// The place of a link in the list of all; `None` exactly where there is no link of that number.
pub fn place_of(links: &[Link], link: u32) -> Option<usize>
    ensures there { IfSome result (λ place. link ≡ place + 1) }
    ensures within { IfSome result (λ place. place < length links.now) }
    ensures none { IfNone result (IsNoLink link (length links.now)) }
{
    let number = link as usize;
    if number == 0 || number > links.len() {
        return None;
    }
    Some(number - 1)
}

/// The link at a side of a machine: at the exit that of the machine's own number, at the entry the
/// one before.
pub fn link_of(machine: u32, side: Side) -> u32
    ensures { result ≡ link_of machine side }
{
    match side {
        Side::Entry => machine.saturating_sub(1),
        Side::Exit => machine,
    }
}

/// A machine's part on the link at a side.
pub fn end_of(side: Side) -> Role
    ensures { result ≡ end_of side }
{
    match side {
        Side::Entry => Role::Downstream,
        Side::Exit => Role::Upstream,
    }
}
