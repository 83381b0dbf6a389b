//! What both channels say alike: signs of life and notifications.

ghost use Rattle.std.specs.Prelude.{◌≡◌, ℕ, OnErr, OnOk, option_map};
ghost use Rattle.hermes_element.specs.Standing.{StillStands};
ghost use Rattle.hermes_horizontal.specs.Canonical.{assigned};
ghost use Rattle.hermes_horizontal.specs.Opened.{ReadsParts};
ghost use Rattle.hermes_horizontal.specs.Parts.{alive_parts, notice_parts};
ghost use Rattle.hermes_horizontal.specs.Rows.{alive_columns, notice_columns};
ghost use Rattle.hermes_horizontal.specs.Said.{values_of};

use crate::assign::{append_number, append_optional_number, append_optional_text, append_text};
use crate::attr::Attr;
use crate::fault::MessageError;
use crate::find::{find_three, find_two};
use crate::message::Ping;
use crate::numbers::{ping_number, severity_number};
use hermes_element::LentAttributes;
use line_base::{Code, Memory, Severity, Text};
use std::alloc::Global;

/// What a CheckAlive says.
#[derive(Drop)]
pub struct Alive {
    pub ping: Option<Ping>,
    pub id: Option<Text>,
}

/// What a Notification says.
#[derive(Drop)]
pub struct Notice {
    pub code: Code,
    pub severity: Severity,
    pub text: Text,
}

/// Reads the attributes of a CheckAlive.
pub fn read_alive(alloc: Global, attributes: LentAttributes<'_>) -> Result<Alive, MessageError>
    ensures { (at : ℕ)
        → ReadsParts (λ alive. alive_parts alive.ping alive.id) result
        (values_of at attributes.entry alive_columns) }
{
    let fields = find_two(attributes, Attr::AliveType, Attr::Id);
    let [ping, id] = &fields;
    let ping = ping.optional_ping()?;
    let id = id.optional_text(alloc)?;
    Ok(Alive { ping, id })
}

/// Reads the attributes of a Notification.
pub fn read_notice(
    alloc: Global,
    at: usize,
    attributes: LentAttributes<'_>,
) -> Result<Notice, MessageError>
    ensures { ReadsParts (λ notice. notice_parts notice.code notice.severity notice.text) result
        (values_of at attributes.entry notice_columns) }
{
    let fields = find_three(
        attributes,
        Attr::NotificationCode,
        Attr::Severity,
        Attr::Description,
    );
    let [code, severity, text] = &fields;
    let number = code.number(at)?;
    let severity = severity.severity(at)?;
    let text = text.text(at)?;
    Ok(Notice {
        code: Code { number },
        severity,
        text: text.text(alloc)?,
    })
}

/// Appends the attributes of a CheckAlive. Where memory is wanting, `to` is as it was.
pub fn append_alive(ping: Option<Ping>, id: Option<&Text>, to: &mut Vec<u8>) -> Result<(), Memory>
    ensures kept { StillStands to.old.items to.new.items }
    ensures written { OnOk result
        (to.new.items
        ≡ assigned to.old.items alive_columns
        (alive_parts ping (option_map (λ text. text.now) id.entry))) }
    ensures unchanged { OnErr result (to.new.items ≡ to.old.items) }
{
    let before = to.len();
    match put_alive(ping, id, to) {
        Ok(()) => Ok(()),
        Err(Memory) => {
            to.truncate(before);
            Err(Memory)
        }
    }
}

/// The same, but where memory is wanting a part of it may stand there.
fn put_alive(ping: Option<Ping>, id: Option<&Text>, to: &mut Vec<u8>) -> Result<(), Memory>
    ensures kept { StillStands to.old.items to.new.items }
    ensures written { OnOk result
        (to.new.items
        ≡ assigned to.old.items alive_columns
        (alive_parts ping (option_map (λ text. text.now) id.entry))) }
{
    append_optional_number(Attr::AliveType, ping.map(|ping| ping_number(ping)), to)?;
    append_optional_text(Attr::Id, id, to)
}

/// Appends the attributes of a Notification. Where memory is wanting, `to` is as it was.
pub fn append_notice(
    code: Code,
    severity: Severity,
    text: &Text,
    to: &mut Vec<u8>,
) -> Result<(), Memory>
    ensures kept { StillStands to.old.items to.new.items }
    ensures written { OnOk result
        (to.new.items ≡ assigned to.old.items notice_columns (notice_parts code severity text.now)) }
    ensures unchanged { OnErr result (to.new.items ≡ to.old.items) }
{
    let before = to.len();
    match put_notice(code, severity, text, to) {
        Ok(()) => Ok(()),
        Err(Memory) => {
            to.truncate(before);
            Err(Memory)
        }
    }
}

/// The same, but where memory is wanting a part of it may stand there.
fn put_notice(code: Code, severity: Severity, text: &Text, to: &mut Vec<u8>) -> Result<(), Memory>
    ensures kept { StillStands to.old.items to.new.items }
    ensures written { OnOk result
        (to.new.items ≡ assigned to.old.items notice_columns (notice_parts code severity text.now)) }
{
    append_number(Attr::NotificationCode, code.number, to)?;
    append_number(Attr::Severity, severity_number(severity), to)?;
    append_text(Attr::Description, text, to)
}
