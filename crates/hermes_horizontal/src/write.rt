ghost use Rattle.std.specs.Prelude.{◌≡◌, ◌++◌, OnOk, OnErr};
ghost use Rattle.hermes_element.specs.Standing.{StillStands};
ghost use Rattle.hermes_horizontal.specs.Canonical.{IsWritable, canonical, body_spelling};
ghost use Rattle.hermes_horizontal.specs.Spelling.{Spells};

use crate::assign::{append, append_optional_moment};
use crate::attr::Attr;
use crate::attributes::append_attributes;
use crate::children::append_children;
use crate::message::{Horizontal, Message};
use line_base::Memory;

/// Typical messages have fewer bytes.
const TYPICAL_BYTES: usize = 512;

/// Appends the canonical spelling of a message, or leaves `to` as it was where memory is wanting.
///
/// What is written is read as this message where the lane, the code and the places of sub boards are
/// at most 999,999,999, a forecast has no sub boards, and the name in `Other` is none of the
/// thirteen. A forecast is written without its sub boards. An `Other` of one of these names is written
/// without its attributes, and what is read of that is another message or a refusal.
pub fn write_horizontal(message: &Message, to: &mut Vec<u8>) -> Result<(), Memory>
    ensures written { OnOk result (to.new.items ≡ to.old.items ++ canonical message.now) }
    ensures unchanged { OnErr result (to.new.items ≡ to.old.items) }
    // what is written of a writable message is read as that message
    ensures reads_back { IsWritable message.now → Spells (canonical message.now) message.now }
{
    message.reads_back();
    if to.reserve(TYPICAL_BYTES).is_err() {
        return Err(Memory);
    }
    let before = to.len();
    match append_message(message, to) {
        Ok(()) => Ok(()),
        Err(Memory) => {
            to.truncate(before);
            Err(Memory)
        }
    }
}

fn append_message(message: &Message, to: &mut Vec<u8>) -> Result<(), Memory>
    ensures kept { StillStands to.old.items to.new.items }
    ensures written { OnOk result (to.new.items ≡ to.old.items ++ canonical message.now) }
{
    append(to, b"<Hermes")?;
    append_optional_moment(Attr::Timestamp, message.stamp, to)?;
    append(to, b">")?;
    append_body(message.body.what(), to)?;
    append(to, b"</Hermes>")
}

fn append_body(body: &Horizontal, to: &mut Vec<u8>) -> Result<(), Memory>
    ensures kept { StillStands to.old.items to.new.items }
    ensures written { OnOk result (to.new.items ≡ to.old.items ++ body_spelling body.now) }
{
    append(to, b"<")?;
    append(to, body.name())?;
    append_attributes(body, to)?;
    append_children(body, to)
}
