use crate::told::tell_error;
use config_service::{Config, ConfigBody, ConfigError, Plan, Settings, read_config};
use line_outside::Address;
use std::alloc::Global;
use std::io;
use std::io::Write;

/// The settings of a machine that begins.
const FIRST: Settings = Settings {
    upstream: None,
    port: 50_101,
};

/// Appends what a message asks of a machine.
pub fn tell_plan(alloc: Global, bytes: &[u8], to: &mut Vec<u8>) -> io::Result<()> {
    match plan(alloc, bytes) {
        Ok(Plan::Tell) => write!(to, "tell"),
        Ok(Plan::Try(settings)) => tell_settings(settings, to),
        Ok(Plan::Nothing) => write!(to, "nothing"),
        Ok(Plan::Breach) => write!(to, "breach"),
        Err(error) => tell_error(error, to),
    }
}

fn plan(alloc: Global, bytes: &[u8]) -> Result<Plan, ConfigError> {
    let message = read_config(alloc, bytes)?;
    let plan = Config::new(FIRST).plan(&message.body);
    drop(message);
    Ok(plan)
}

fn tell_settings(settings: Settings, to: &mut Vec<u8>) -> io::Result<()> {
    let port = settings.port;
    match settings.upstream {
        Some(address) => tell_address(address, to)?,
        None => write!(to, "try -")?,
    }
    write!(to, " {port}")
}

fn tell_address(address: Address, to: &mut Vec<u8>) -> io::Result<()> {
    let [a, b, c, d] = address.host;
    let port = address.port;
    write!(to, "try {a}.{b}.{c}.{d}:{port}")
}

/// Appends which sides are reset where the settings of the second message follow those of the
/// first, and whether these are then the settings.
pub fn tell_accepted(
    alloc: Global,
    first: &[u8],
    second: &[u8],
    to: &mut Vec<u8>,
) -> io::Result<()> {
    match (settings(alloc, first), settings(alloc, second)) {
        (Some(first), Some(second)) => {
            let mut config = Config::new(first);
            let resets = config.accept(second);
            let upstream = if resets.upstream { "upstream " } else { "" };
            let downstream = if resets.downstream { "downstream " } else { "" };
            let kept = if config.settings() == second {
                "then these"
            } else {
                "then others"
            };
            write!(to, "{upstream}{downstream}{kept}")
        }
        _ => write!(to, "no settings"),
    }
}

/// The settings of a message that has some.
fn settings(alloc: Global, bytes: &[u8]) -> Option<Settings> {
    match read_config(alloc, bytes) {
        Ok(message) => {
            let settings = settings_of(&message.body);
            drop(message);
            settings
        }
        Err(_) => None,
    }
}

fn settings_of(body: &ConfigBody) -> Option<Settings> {
    match body {
        ConfigBody::Set(settings) => Some(*settings),
        ConfigBody::Current(settings) => Some(*settings),
        _ => None,
    }
}
