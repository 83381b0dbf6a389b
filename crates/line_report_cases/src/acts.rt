//! The acts of the cases: the word of one, and behind it the words of its values. A message is
//! given by its spelling.

use crate::values::{event_of, id_of, line_of, parted, quality_of, side_of, signal_of};
use hermes_horizontal::{Message, MessageError, read_horizontal};
use hermes_vertical::{Vertical, VerticalMessage, read_vertical};
use line_base::{Memory, Side, Text};
use node_core::{Act, Deed, Setting, ToSupervisor};
use std::alloc::Global;

pub fn act_of(alloc: Global, words: &str) -> Result<Act, Memory> {
    let (what, about) = parted(words);
    let (first, second) = parted(about);
    match what {
        "Hears" => Ok(Act::Hears(side_of(first), message_of(alloc, second)?)),
        "Sends" => Ok(Act::Sends(side_of(first), message_of(alloc, second)?)),
        "Breaches" => Ok(Act::Breaches(side_of(first), text_of(alloc, second)?)),
        "Tells" => Ok(Act::Tells(ToSupervisor::new(alloc, told_of(alloc, about)?)?)),
        "Answered" => answered_of(alloc, about),
        "Connects" => Ok(Act::Connects),
        "Supervise" => Ok(Act::Sets(Setting::Supervise(first == "on"))),
        "Level" => Ok(Act::Sets(Setting::Level(line_of(first), second == "on"))),
        "Signals" => Ok(Act::Signals(signal_of(first), second == "on")),
        _ => Ok(sided_of(what, first, second)),
    }
}

/// The message that a case spells.
fn message_of(alloc: Global, spelled: &str) -> Result<Message, Memory> {
    match read_horizontal(alloc, spelled.as_bytes()) {
        Ok(message) => Ok(message),
        Err(MessageError::Refused { .. }) => Err(Memory),
        Err(MessageError::Memory) => Err(Memory),
    }
}

/// The message to a supervisor, or from it, that a case spells.
fn told_of(alloc: Global, spelled: &str) -> Result<VerticalMessage, Memory> {
    match read_vertical(alloc, spelled.as_bytes()) {
        Ok(message) => Ok(message),
        Err(MessageError::Refused { .. }) => Err(Memory),
        Err(MessageError::Memory) => Err(Memory),
    }
}

/// The act that takes the answer which a case spells.
fn answered_of(alloc: Global, spelled: &str) -> Result<Act, Memory> {
    let told = told_of(alloc, spelled)?;
    let answered = match &told.body {
        Vertical::SendWorkOrderInfo { query, order, .. } => answered(alloc, *query, order),
        _ => Err(Memory),
    };
    drop(told);
    answered
}

fn answered(alloc: Global, query: u64, order: &Text) -> Result<Act, Memory> {
    Ok(Act::Answered(query, order.copy(alloc)?))
}

/// The work order of the answer that a case spells.
pub fn order_of(alloc: Global, spelled: &str) -> Result<Text, Memory> {
    let told = told_of(alloc, spelled)?;
    let order = match &told.body {
        Vertical::SendWorkOrderInfo { order, .. } => order.copy(alloc),
        _ => Err(Memory),
    };
    drop(told);
    order
}

fn text_of(alloc: Global, text: &str) -> Result<Text, Memory> {
    Text::read(alloc, text.as_bytes()).map_err(|_| Memory)
}

fn sided_of(what: &str, first: &str, second: &str) -> Act {
    let side = side_of(first);
    match what {
        "Reads" => Act::Reads(side, event_of(second)),
        "Closes" => Act::Closes(side),
        "Notices" => Act::Notices(side),
        "Drive" => Act::Drive(side, second == "on"),
        "Will" => Act::Sets(Setting::Will(side, second == "on")),
        _ => by_hand_of(what, first, second),
    }
}

fn by_hand_of(what: &str, first: &str, second: &str) -> Act {
    let id = id_of(first);
    match what {
        "Marks" => Act::Marks(id, quality_of(second)),
        "Subs" => Act::Subs {
            id,
            pos: second.parse().unwrap_or(0),
        },
        "Gives" => Act::Gives {
            id,
            to: second.parse().unwrap_or(0),
        },
        "Gets" => Act::Gets { id },
        "Inserts" => Act::Inserts(id),
        "Removes" => Act::Removes(id),
        "Replaces" => Act::Replaces(id, id_of(second)),
        _ => Act::Deed(deed_of(what, first)),
    }
}

fn deed_of(what: &str, id: &str) -> Deed {
    let id = id_of(id);
    match what {
        "Opens" => Deed::Opens(id),
        "Refuses" => Deed::Refuses(id),
        "Leaves" => Deed::Leaves(id),
        "Returns" => Deed::Returns(id),
        "Loses" => Deed::Loses(id),
        "Starts" => Deed::Starts(id),
        "Settles" => Deed::Settles(id),
        _ => Deed::Drops(id),
    }
}
