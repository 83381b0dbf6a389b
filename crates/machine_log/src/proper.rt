//! What the types of a machine's acts say of them. Each function states it of a kind of part: it
//! goes over the part, and changes nothing.

ghost use Rattle.std.specs.Prelude.{◌<◌, ◌^◌};
ghost use Rattle.line_base.specs.Name.{IsName};
ghost use Rattle.hermes_horizontal.specs.Parts.{name_of};
ghost use Rattle.hermes_vertical.specs.Parts.{name_of as vertical_name_of};
ghost use Rattle.machine_log.specs.Account.{AreProper, IsProperAct, id_of_deed};

use board_record::BoardId;
use hermes_horizontal::Horizontal;
use hermes_vertical::Vertical;
use node_core::{Act, Deed};

/// Every id and every name in these acts is what its type allows.
pub fn acts_are_proper(acts: &[Act])
    ensures { AreProper acts.now }
{
    for act in acts {
        act_is_proper(act);
    }
}

fn act_is_proper(act: &Act)
    ensures { IsProperAct act.now }
{
    match act {
        Act::Hears(_, message) | Act::Sends(_, message) => name_is_proper(message.body.what()),
        Act::Deed(deed) => deed_is_proper(*deed),
        Act::Inserts(id) | Act::Removes(id) => id_is_proper(*id),
        Act::Gives { id, .. } => id_is_proper(*id),
        Act::Gets { id } => id_is_proper(*id),
        Act::Replaces(old, new) => {
            id_is_proper(*old);
            id_is_proper(*new);
        }
        Act::Tells(told) => told_is_proper(&told.message().body),
        Act::Reads(_, _)
        | Act::Breaches(_, _)
        | Act::Closes(_)
        | Act::Notices(_)
        | Act::Connects
        | Act::Drive(_, _)
        | Act::Signals(_, _)
        | Act::Marks(_, _)
        | Act::Subs { .. }
        | Act::Answered(_, _)
        | Act::Sets(_) => {}
    }
}

fn deed_is_proper(deed: Deed)
    ensures { id_of_deed deed < 2 ^ 128 }
{
    match deed {
        Deed::Opens(id)
        | Deed::Refuses(id)
        | Deed::Leaves(id)
        | Deed::Returns(id)
        | Deed::Loses(id)
        | Deed::Starts(id)
        | Deed::Settles(id)
        | Deed::Drops(id) => id_is_proper(id),
    }
}

/// An id has 128 bits.
fn id_is_proper(id: BoardId)
    ensures { id < 2 ^ 128 }
{
    let _number = id.number();
}

/// A name is a name.
fn name_is_proper(body: &Horizontal)
    ensures { IsName (name_of body.now) }
{
    if let Horizontal::Other(name) = body {
        let _bytes = name.bytes();
    }
}

/// And so is that of what the supervisor is told.
fn told_is_proper(body: &Vertical)
    ensures { IsName (vertical_name_of body.now) }
{
    if let Vertical::Other(name) = body {
        let _bytes = name.bytes();
    }
}
