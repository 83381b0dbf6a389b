ghost use Rattle.std.specs.Prelude.{ℕ};
ghost use Rattle.hermes_horizontal.specs.Spelling.{ReadsMessage, Spells, AnswersMessage, IsRefused, AnswersRefusal};
ghost use Rattle.hermes_horizontal.specs.Reading.{ReadsTree};
ghost use Rattle.hermes_horizontal.specs.declared.message.Message.{Message};
ghost use Rattle.hermes_horizontal.specs.declared.fault.Fault.{Fault};

use crate::fault::{Fault, MessageError};
use crate::message::Message;
use crate::root::{Opened, open_root};
use crate::rows::body_of;
use crate::said::Said;
use hermes_element::{ElementError, LentElement, read_lent};
use line_base::Memory;
use std::alloc::Global;

/// Reads the bytes of one element as a message.
///
/// `Refused` says at which index, and why, the bytes spell none. The tests come in this order: the
/// form of the element, the root's name, the Timestamp, the number of children, and then the
/// attributes of the message in the order of its row in the table (`columns_of`), wherever they
/// stand in the bytes. Attributes of other names and other children are passed over. `Memory` says
/// that memory was wanting for the message or, meanwhile, for its element.
pub fn read_horizontal(alloc: Global, bytes: &[u8]) -> Result<Message, MessageError>
    ensures answer { ReadsMessage bytes.now result }
    ensures spelled { (message : Message) → Spells bytes.now message
        → AnswersMessage result message }
    ensures refused { (at : ℕ) (why : Fault) → IsRefused bytes.now at why
        → AnswersRefusal result at why }
{
    match read_lent(alloc, bytes) {
        Ok(root) => message_of(alloc, root),
        Err(ElementError::Refused { at, why }) => Err(MessageError::Refused {
            at,
            why: Fault::Form(why),
        }),
        Err(ElementError::Memory) => Err(MessageError::Memory),
    }
}

/// What a root says.
fn message_of(alloc: Global, root: LentElement<'_>) -> Result<Message, MessageError>
    ensures { ReadsTree root.entry result }
{
    let Opened { stamp, child } = open_root(root)?;
    let body = body_of(alloc, child)?;
    match Said::new(alloc, body) {
        Ok(body) => Ok(Message { stamp, body }),
        Err(Memory) => Err(MessageError::Memory),
    }
}
