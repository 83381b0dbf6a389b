use line_outside::Address;
use node_settings::{Settings, SettingsError};
use std::alloc::{AllocError, Global};
use std::str;

/// What was read, as text.
pub fn told_of(
    alloc: Global,
    read: &Result<Settings, SettingsError>,
) -> Result<String, AllocError> {
    match read {
        Ok(settings) => told_settings(alloc, settings),
        Err(SettingsError::Refused(key, why)) => format!(in alloc; "{key}: {why:?}"),
        Err(SettingsError::Memory) => String::from_str(alloc, "out of memory"),
    }
}

fn told_settings(alloc: Global, settings: &Settings) -> Result<String, AllocError> {
    let number = settings.identity.number;
    let id = str::from_utf8(settings.identity.machine_id.bytes()).unwrap_or("no text");
    let lane = settings.identity.lane;
    let capacity = settings.places.capacity;
    let used = settings.places.used;
    let body = if settings.bridge { " bridge" } else { "" };
    let upstream = told_address(alloc, settings.connections.upstream)?;
    let downstream = settings.connections.downstream_port;
    let supervisory = told_port(alloc, settings.connections.supervisory_port)?;
    let panel = settings.connections.panel_port;
    let config = told_config(alloc, settings.connections.config_port)?;
    let turns = settings.turns;
    let drives = if settings.panel.drives { " drives" } else { "" };
    let anywhere = if settings.panel.anywhere {
        " anywhere"
    } else {
        ""
    };
    format!(in alloc;
        "{number} {id} {lane} {capacity} {used}{body} {upstream} {downstream}{supervisory} {panel}{config} {turns}{drives}{anywhere}"
    )
}

/// The port of a supervisory system, with what it is, where it is set.
fn told_port(alloc: Global, port: Option<u16>) -> Result<String, AllocError> {
    match port {
        Some(port) => format!(in alloc; " supervisory {port}"),
        None => String::from_str(alloc, ""),
    }
}

/// The port of the configuration service, with what it is, where it is set.
fn told_config(alloc: Global, port: Option<u16>) -> Result<String, AllocError> {
    match port {
        Some(port) => format!(in alloc; " configuration {port}"),
        None => String::from_str(alloc, ""),
    }
}

fn told_address(alloc: Global, address: Option<Address>) -> Result<String, AllocError> {
    match address {
        Some(address) => {
            let [a, b, c, d] = address.host;
            let port = address.port;
            format!(in alloc; "{a}.{b}.{c}.{d}:{port}")
        }
        None => String::from_str(alloc, "-"),
    }
}
