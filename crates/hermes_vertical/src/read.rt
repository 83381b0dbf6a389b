ghost use Rattle.std.specs.Prelude.{ℕ};
ghost use Rattle.hermes_horizontal.specs.Roots.{AnswersMessage, AnswersRefusal};
ghost use Rattle.hermes_horizontal.specs.declared.fault.Fault.{Fault};
ghost use Rattle.hermes_vertical.specs.Spelling.{ReadsMessage, ReadsTree, Spells, IsRefused};
ghost use Rattle.hermes_vertical.specs.declared.message.VerticalMessage.{VerticalMessage};

use crate::message::VerticalMessage;
use crate::rows::body_of;
use hermes_element::{ElementError, LentElement, read_lent};
use hermes_horizontal::columns::{Opened, open_root};
use hermes_horizontal::{Fault, MessageError};
use std::alloc::Global;

/// Reads the bytes of one element as a supervisory message.
///
/// `Refused` says at which index, and why, the bytes spell none. The tests come in this order: the
/// form of the element, the root's name, the Timestamp, the number of children, and then the
/// attributes of the message in the order of its row in the table (`columns_of`), wherever they
/// stand in the bytes. A question that isn't asked by exactly a barcode, or exactly an order, or
/// exactly a magazine and a slot is a bad QueryId, just behind the test of its number. Attributes
/// of other names and other children are passed over. `Memory` says that memory was wanting for
/// the message or, meanwhile, for its element.
pub fn read_vertical(alloc: Global, bytes: &[u8]) -> Result<VerticalMessage, MessageError>
    ensures answer { ReadsMessage bytes.now result }
    ensures spelled { (message : VerticalMessage) → Spells bytes.now message
        → AnswersMessage result message }
    ensures refused { (at : ℕ) (why : Fault) → IsRefused bytes.now at why
        → AnswersRefusal result at why }
{
    match read_lent(alloc, bytes) {
        Ok(root) => message_of(alloc, root),
        Err(ElementError::Refused { at, why }) => Err(MessageError::Refused {
            at,
            why: Fault::Form(why),
        }),
        Err(ElementError::Memory) => Err(MessageError::Memory),
    }
}

/// What a root says.
fn message_of(alloc: Global, root: LentElement<'_>) -> Result<VerticalMessage, MessageError>
    ensures { ReadsTree root.entry result }
{
    let Opened { stamp, child } = open_root(root)?;
    let body = body_of(alloc, child)?;
    Ok(VerticalMessage { stamp, body })
}
