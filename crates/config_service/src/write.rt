ghost use Rattle.std.specs.Prelude.{◌≡◌, ◌++◌, OnOk, OnErr, option_map};
ghost use Rattle.std.specs.Fmt.{decimal};
ghost use Rattle.hermes_element.specs.Standing.{StillStands};
ghost use Rattle.config_service.specs.Canonical.{IsWritable, assignment, attributes_of, body_spelling, canonical, notice_attributes, port_attribute, settings_attributes, severity_number, spelled, stamp_attributes, upstream_attributes};
ghost use Rattle.config_service.specs.Spelling.{Spells};
ghost use Rattle.line_base.specs.Moment.{moment_text};
ghost use Rattle.line_outside.specs.Written.{address_text};
ghost use Rattle.config_service.specs.declared.attr.ConfigAttr.TheVariants as attrs;

use crate::attr::ConfigAttr;
use crate::message::{ConfigBody, ConfigMessage, Settings};
use hermes_element::write_attribute;
use line_base::{Code, Memory, Moment, Severity, Text};
use line_outside::{Address, write_address};

/// Appends the canonical spelling of a message, or leaves `to` as it was where memory is wanting.
///
/// What is written is read as this message where its ports aren't 0, its code is at most
/// 999,999,999 and the name in `Other` is none of the four. An `Other` of one of these names is
/// written without attributes, and what is read of that is another message or a refusal.
pub fn write_config(message: &ConfigMessage, to: &mut Vec<u8>) -> Result<(), Memory>
    ensures written { OnOk result (to.new.items ≡ to.old.items ++ canonical message.now) }
    ensures unchanged { OnErr result (to.new.items ≡ to.old.items) }
    // what is written of a writable message is read as that message
    ensures reads_back { IsWritable message.now → Spells (canonical message.now) message.now }
{
    message.reads_back();
    let before = to.len();
    match append_message(message, to) {
        Ok(()) => Ok(()),
        Err(Memory) => {
            to.truncate(before);
            Err(Memory)
        }
    }
}

fn append_message(message: &ConfigMessage, to: &mut Vec<u8>) -> Result<(), Memory>
    ensures kept { StillStands to.old.items to.new.items }
    ensures written { OnOk result (to.new.items ≡ to.old.items ++ canonical message.now) }
{
    append(to, b"<Hermes")?;
    append_stamp(message.stamp, to)?;
    append(to, b">")?;
    append_body(&message.body, to)?;
    append(to, b"</Hermes>")
}

fn append_body(body: &ConfigBody, to: &mut Vec<u8>) -> Result<(), Memory>
    ensures kept { StillStands to.old.items to.new.items }
    ensures written { OnOk result (to.new.items ≡ to.old.items ++ body_spelling body.now) }
{
    append(to, b"<")?;
    append(to, body.name())?;
    append_attributes(body, to)?;
    append(to, b"/>")
}

fn append_attributes(body: &ConfigBody, to: &mut Vec<u8>) -> Result<(), Memory>
    ensures kept { StillStands to.old.items to.new.items }
    ensures written { OnOk result
        (to.new.items ≡ to.old.items ++ spelled (attributes_of body.now)) }
{
    match body {
        ConfigBody::Get => Ok(()),
        ConfigBody::Set(settings) => append_settings(*settings, to),
        ConfigBody::Current(settings) => append_settings(*settings, to),
        ConfigBody::Notification {
            code,
            severity,
            text,
        } => append_notice(*code, *severity, text, to),
        ConfigBody::Other(_) => Ok(()),
    }
}

fn append_settings(settings: Settings, to: &mut Vec<u8>) -> Result<(), Memory>
    ensures kept { StillStands to.old.items to.new.items }
    ensures written { OnOk result
        (to.new.items ≡ to.old.items ++ spelled (settings_attributes settings)) }
{
    append_upstream(settings.upstream, to)?;
    append_number(ConfigAttr::DownstreamPort, settings.port as u32, to)
}

fn append_upstream(upstream: Option<Address>, to: &mut Vec<u8>) -> Result<(), Memory>
    ensures kept { StillStands to.old.items to.new.items }
    ensures written { OnOk result
        (to.new.items ≡ to.old.items ++ spelled (upstream_attributes upstream)) }
{
    match upstream {
        Some(address) => append_address(address, to),
        None => Ok(()),
    }
}

fn append_address(address: Address, to: &mut Vec<u8>) -> Result<(), Memory>
    ensures kept { StillStands to.old.items to.new.items }
    ensures written { OnOk result
        (to.new.items ≡ to.old.items ++ assignment attrs.UpstreamAddress (address_text address)) }
{
    let mut text = Vec::new(*to.allocator());
    write_address(&address, &mut text)?;
    append_value(ConfigAttr::UpstreamAddress, text.as_slice(), to)
}

fn append_stamp(stamp: Option<Moment>, to: &mut Vec<u8>) -> Result<(), Memory>
    ensures kept { StillStands to.old.items to.new.items }
    ensures written { OnOk result
        (to.new.items ≡ to.old.items ++ spelled (stamp_attributes stamp)) }
{
    match stamp {
        Some(moment) => append_moment(moment, to),
        None => Ok(()),
    }
}

fn append_moment(moment: Moment, to: &mut Vec<u8>) -> Result<(), Memory>
    ensures kept { StillStands to.old.items to.new.items }
    ensures written { OnOk result
        (to.new.items ≡ to.old.items ++ assignment attrs.Timestamp (moment_text moment)) }
{
    let mut text = Vec::new(*to.allocator());
    moment.write(&mut text)?;
    append_value(ConfigAttr::Timestamp, text.as_slice(), to)
}

fn append_notice(
    code: Code,
    severity: Severity,
    text: &Text,
    to: &mut Vec<u8>,
) -> Result<(), Memory>
    ensures kept { StillStands to.old.items to.new.items }
    ensures written { OnOk result
        (to.new.items ≡ to.old.items ++ spelled (notice_attributes code severity text.now)) }
{
    append_number(ConfigAttr::NotificationCode, code.number, to)?;
    append_number(ConfigAttr::Severity, severity_number(severity), to)?;
    append_value(ConfigAttr::Description, text.bytes(), to)
}

fn severity_number(severity: Severity) -> u32
    ensures { result ≡ severity_number severity }
{
    match severity {
        Severity::Fatal => 1,
        Severity::Error => 2,
        Severity::Warning => 3,
        Severity::Info => 4,
    }
}

fn append_number(attr: ConfigAttr, number: u32, to: &mut Vec<u8>) -> Result<(), Memory>
    ensures kept { StillStands to.old.items to.new.items }
    ensures written { OnOk result
        (to.new.items ≡ to.old.items ++ assignment attr (decimal number)) }
{
    append_value(attr, itoa::Buffer::new().format(number).as_bytes(), to)
}

fn append_value(attr: ConfigAttr, value: &[u8], to: &mut Vec<u8>) -> Result<(), Memory>
    ensures kept { StillStands to.old.items to.new.items }
    ensures written { OnOk result (to.new.items ≡ to.old.items ++ assignment attr value.now) }
{
    write_attribute(attr.text().as_bytes(), value, to)
}

fn append(to: &mut Vec<u8>, bytes: &[u8]) -> Result<(), Memory>
    ensures kept { StillStands to.old.items to.new.items }
    ensures written { OnOk result (to.new.items ≡ to.old.items ++ bytes.now) }
{
    match to.extend_from_slice(bytes) {
        Ok(()) => Ok(()),
        Err(_) => Err(Memory),
    }
}
