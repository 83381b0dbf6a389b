ghost use Rattle.std.specs.Prelude.{◌≡◌, ℕ, codes};
ghost use Rattle.std.specs.Str.{bytes_eq};
ghost use Rattle.config_service.specs.Said.{message_of, only_child, said_in};
ghost use Rattle.config_service.specs.Spelling.{AnswersMessage, AnswersRefusal, Gives, IsRefused, Reads, ReadsMessage, Spells};
ghost use Rattle.config_service.specs.declared.fault.ConfigFault.{ConfigFault};
ghost use Rattle.config_service.specs.declared.message.ConfigMessage.{ConfigMessage};

use crate::fault::{ConfigError, ConfigFault, ConfigRefusal};
use crate::message::ConfigMessage;
use crate::rows::{body_of, stamp_in};
use hermes_element::{ElementError, LentElement, read_lent};
use std::alloc::Global;

/// Reads the bytes of one element as a message of the configuration service.
///
/// `Refused` says at which index, and why, the bytes spell none. The tests come in this order: the
/// form of the element, the root's name, the Timestamp, the number of children, and then the
/// attributes of the message in the order of the table (`message_of`), wherever they stand in the
/// bytes. The first attribute of a name counts; attributes of other names and the children of the
/// message are passed over. `Memory` says that memory was wanting for the message or, meanwhile,
/// for its element.
pub fn read_config(alloc: Global, bytes: &[u8]) -> Result<ConfigMessage, ConfigError>
    ensures answer { ReadsMessage bytes.now result }
    ensures spelled { (message : ConfigMessage) → Spells bytes.now message
        → AnswersMessage result message }
    ensures refused { (at : ℕ) (why : ConfigFault) → IsRefused bytes.now at why
        → AnswersRefusal result at why }
{
    match read_lent(alloc, bytes) {
        Ok(root) => message_of(alloc, root),
        Err(ElementError::Refused { at, why }) => Err(ConfigError::Refused {
            at,
            why: ConfigFault::Form(why),
        }),
        Err(ElementError::Memory) => Err(ConfigError::Memory),
    }
}

/// What a root says.
fn message_of(alloc: Global, root: LentElement<'_>) -> Result<ConfigMessage, ConfigError>
    ensures { Reads (message_of root.entry) result }
{
    said_by(alloc, &root)
}

#[tactic(auto, using(crate::proofs::Answering::said_so))]
fn said_by(alloc: Global, root: &LentElement<'_>) -> Result<ConfigMessage, ConfigError>
    ensures { Reads (message_of root.now) result }
{
    if !is_root(root.name.bytes()) {
        return Err(ConfigError::Refused {
            at: root.at,
            why: ConfigFault::Root,
        });
    }
    said_in(alloc, root)
}

fn is_root(name: &[u8]) -> bool
    ensures { result ≡ bytes_eq name.now (codes "Hermes") }
{
    name == &b"Hermes"[..]
}

/// What a root of the right name says.
fn said_in(alloc: Global, root: &LentElement<'_>) -> Result<ConfigMessage, ConfigError>
    ensures { Reads (said_in root.now) result }
{
    let stamp = stamp_in(root.attributes.list())?;
    let child = only_child(root.at, root.children.list())?;
    let body = body_of(alloc, child)?;
    Ok(ConfigMessage { stamp, body })
}

/// The one element in a root, where there is exactly one.
fn only_child<'a, 'b>(
    at: usize,
    children: &'b [LentElement<'a>],
) -> Result<&'b LentElement<'a>, ConfigRefusal>
    ensures { Gives (λ child. child.now) result (only_child at children.now) }
{
    match children {
        [child] => Ok(child),
        _ => Err(ConfigRefusal {
            at,
            why: ConfigFault::Count,
        }),
    }
}
