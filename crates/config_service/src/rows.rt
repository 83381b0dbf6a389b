//! The messages, read attribute by attribute in the order of the table.

ghost use Rattle.std.specs.Prelude.{◌≡◌};
ghost use Rattle.line_outside.specs.Address.{address_of, port_of};
ghost use Rattle.line_base.specs.Number.{number_of};
ghost use Rattle.config_service.specs.Said.{body_of, moment_in, notice_of, optional, required, settings_of, severity_of, text_of};
ghost use Rattle.config_service.specs.Spelling.{Gives, Reads};
ghost use Rattle.config_service.specs.declared.attr.ConfigAttr.TheVariants as attrs;

use crate::attr::ConfigAttr;
use crate::fault::{ConfigError, ConfigRefusal};
use crate::find::{bad, first_named, missing};
use crate::kind::{ConfigKind, kind_named};
use crate::message::{ConfigBody, Settings};
use hermes_element::{LentAttribute, LentElement, LentValue};
use line_base::{Code, Moment, Severity, read_number};
use line_outside::{Address, address_of, port_of};
use std::alloc::Global;

/// What the element of a message says.
pub fn body_of(alloc: Global, child: &LentElement<'_>) -> Result<ConfigBody, ConfigError>
    ensures { Reads (body_of child.now) result }
{
    let attributes = child.attributes.list();
    match kind_named(child.name.bytes()) {
        ConfigKind::GetConfiguration => Ok(ConfigBody::Get),
        ConfigKind::SetConfiguration => Ok(ConfigBody::Set(settings_of(child.at, attributes)?)),
        ConfigKind::CurrentConfiguration => {
            Ok(ConfigBody::Current(settings_of(child.at, attributes)?))
        }
        ConfigKind::Notification => notice_of(alloc, child.at, attributes),
        ConfigKind::Other => Ok(ConfigBody::Other(child.name.own(alloc)?)),
    }
}

fn settings_of(at: usize, attributes: &[LentAttribute<'_>]) -> Result<Settings, ConfigRefusal>
    ensures { result ≡ settings_of at attributes.now }
{
    let upstream = upstream_in(attributes)?;
    let port = port_in(at, attributes)?;
    Ok(Settings { upstream, port })
}

fn upstream_in(attributes: &[LentAttribute<'_>]) -> Result<Option<Address>, ConfigRefusal>
    ensures { result ≡ optional address_of attrs.UpstreamAddress attributes.now }
{
    match first_named(attributes, ConfigAttr::UpstreamAddress) {
        Some(attribute) => match address_of(attribute.value.bytes()) {
            Some(address) => Ok(Some(address)),
            None => Err(bad(ConfigAttr::UpstreamAddress, attribute)),
        },
        None => Ok(None),
    }
}

fn port_in(at: usize, attributes: &[LentAttribute<'_>]) -> Result<u16, ConfigRefusal>
    ensures { result ≡ required port_of attrs.DownstreamPort at attributes.now }
{
    match first_named(attributes, ConfigAttr::DownstreamPort) {
        Some(attribute) => match port_of(attribute.value.bytes()) {
            Some(port) => Ok(port),
            None => Err(bad(ConfigAttr::DownstreamPort, attribute)),
        },
        None => Err(missing(ConfigAttr::DownstreamPort, at)),
    }
}

fn notice_of(
    alloc: Global,
    at: usize,
    attributes: &[LentAttribute<'_>],
) -> Result<ConfigBody, ConfigError>
    ensures { Reads (notice_of at attributes.now) result }
{
    let number = code_in(at, attributes)?;
    let severity = severity_in(at, attributes)?;
    let text = text_in(at, attributes)?;
    Ok(ConfigBody::Notification {
        code: Code { number },
        severity,
        text: text.text(alloc)?,
    })
}

fn code_in(at: usize, attributes: &[LentAttribute<'_>]) -> Result<u32, ConfigRefusal>
    ensures { result ≡ required number_of attrs.NotificationCode at attributes.now }
{
    match first_named(attributes, ConfigAttr::NotificationCode) {
        Some(attribute) => match read_number(attribute.value.bytes()) {
            Some(number) => Ok(number),
            None => Err(bad(ConfigAttr::NotificationCode, attribute)),
        },
        None => Err(missing(ConfigAttr::NotificationCode, at)),
    }
}

fn severity_in(at: usize, attributes: &[LentAttribute<'_>]) -> Result<Severity, ConfigRefusal>
    ensures { result ≡ required severity_of attrs.Severity at attributes.now }
{
    match first_named(attributes, ConfigAttr::Severity) {
        Some(attribute) => match severity_of(attribute.value.bytes()) {
            Some(severity) => Ok(severity),
            None => Err(bad(ConfigAttr::Severity, attribute)),
        },
        None => Err(missing(ConfigAttr::Severity, at)),
    }
}

fn severity_of(bytes: &[u8]) -> Option<Severity>
    ensures { result ≡ severity_of bytes.now }
{
    let number = read_number(bytes)?;
    if number == 1 {
        return Some(Severity::Fatal);
    }
    if number == 2 {
        return Some(Severity::Error);
    }
    if number == 3 {
        return Some(Severity::Warning);
    }
    if number == 4 {
        return Some(Severity::Info);
    }
    None
}

fn text_in<'a, 'b>(
    at: usize,
    attributes: &'b [LentAttribute<'a>],
) -> Result<&'b LentValue<'a>, ConfigRefusal>
    ensures { Gives (λ text. text.now) result
        (required text_of attrs.Description at attributes.now) }
{
    match first_named(attributes, ConfigAttr::Description) {
        Some(attribute) => Ok(&attribute.value),
        None => Err(missing(ConfigAttr::Description, at)),
    }
}

/// When a message was sent, where its root tells.
pub fn stamp_in(attributes: &[LentAttribute<'_>]) -> Result<Option<Moment>, ConfigRefusal>
    ensures { result ≡ optional moment_in attrs.Timestamp attributes.now }
{
    match first_named(attributes, ConfigAttr::Timestamp) {
        Some(attribute) => match Moment::read(attribute.value.bytes()) {
            Ok(moment) => Ok(Some(moment)),
            Err(_) => Err(bad(ConfigAttr::Timestamp, attribute)),
        },
        None => Ok(None),
    }
}
