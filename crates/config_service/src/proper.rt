//! What the types of a message's parts say of them. Each function states it of a kind of part: it
//! goes over the part, and changes nothing.

ghost use Rattle.std.specs.Prelude.{IfSome};
ghost use Rattle.line_base.specs.Moment.{IsMomentMillis};
ghost use Rattle.line_outside.specs.Written.{IsProperAddress};
ghost use Rattle.config_service.specs.Canonical.{IsProperBody, IsProperMessage, IsProperSettings};

use crate::message::{ConfigBody, ConfigMessage, Settings};
use line_base::Moment;
use line_outside::{Address, address_is_proper};

/// Every part of a message is within what its type allows.
pub fn parts_are_proper(message: &ConfigMessage)
    ensures { IsProperMessage message.now }
{
    stamp_is_proper(message.stamp);
    body_is_proper(&message.body);
}

fn stamp_is_proper(stamp: Option<Moment>)
    ensures { IfSome stamp IsMomentMillis }
{
    if let Some(moment) = stamp {
        let _millis = moment.millis();
    }
}

fn body_is_proper(body: &ConfigBody)
    ensures { IsProperBody body.now }
{
    match body {
        ConfigBody::Get => {}
        ConfigBody::Set(settings) => settings_are_proper(*settings),
        ConfigBody::Current(settings) => settings_are_proper(*settings),
        ConfigBody::Notification { text, .. } => {
            let _bytes = text.bytes();
        }
        ConfigBody::Other(name) => {
            let _bytes = name.bytes();
        }
    }
}

fn settings_are_proper(settings: Settings)
    ensures { IsProperSettings settings }
{
    upstream_is_proper(settings.upstream);
    let _port = settings.port;
}

fn upstream_is_proper(upstream: Option<Address>)
    ensures { IfSome upstream IsProperAddress }
{
    if let Some(address) = upstream {
        address_is_proper(address);
    }
}
