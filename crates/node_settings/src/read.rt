ghost use Rattle.std.specs.Prelude.{◌≡◌, ◌≤◌, IfOk, string_bytes, unwrap_or};
ghost use Rattle.std.specs.BTreeMap.{keys};
ghost use Rattle.std.specs.List.{list_all};
ghost use Rattle.std.specs.Option.{ForSome};
ghost use Rattle.toml.specs.View.{table_view};
ghost use Rattle.node_settings.specs.Settings.{Reads, read_of, settings_of, identity_of, places_of, bridge_of, connections_of, known_panel_of, panel_of, turns_of, are_known, is_known, is_known_of_machine, is_known_of_connections, is_known_of_panel};

use crate::key::{ConfigKey, ConfigWhy, SettingsError};
use crate::settings::{Connections, Identity, Panel, Places, Settings};
use crate::value::{
    id_text_at, number_at, optional_address_at, optional_number_at, optional_switch_at,
};
use std::alloc::Global;
use toml::Table;

/// The most bytes of a settings file.
pub const MOST_SETTINGS_BYTES: usize = 65_536;

/// The standard's port of a lane is this and the lane's number.
const FIRST_PORT: u32 = 50_100;

/// Reads the settings of a machine, a document of TOML.
///
/// Refuses, in this order: a document of more than 65,536 bytes, or one that is no TOML (numbers
/// beyond 64 bits and nesting past 80 are none); then the first of the keys `number`,
/// `machine_id`, `lane`, `capacity`, `used`, `bridge`, `upstream`, `downstream_port`,
/// `supervisory_port`, `panel_port`, `config_port`, `turns`, `drives`, `panel_anywhere` that is missing but not
/// optional, of the wrong kind or out of range; and then a key of another name.
pub fn read_settings(alloc: Global, bytes: &[u8]) -> Result<Settings, SettingsError>
    ensures { Reads (read_of bytes.now) result }
{
    if bytes.len() > MOST_SETTINGS_BYTES {
        return Err(SettingsError::Refused(ConfigKey::Document, ConfigWhy::TooLarge));
    }
    match toml::table_from_slice(alloc, bytes) {
        Ok(table) => settings_of(alloc, &table),
        Err(error) => {
            if error.is_memory() {
                return Err(SettingsError::Memory);
            }
            Err(SettingsError::Refused(ConfigKey::Document, ConfigWhy::NotToml))
        }
    }
}

fn settings_of(alloc: Global, table: &Table) -> Result<Settings, SettingsError>
    ensures { Reads (settings_of (table_view table.now)) result }
{
    let identity = identity_of(alloc, table)?;
    let places = places_of(table)?;
    let bridge = optional_switch_at(table, "bridge", ConfigKey::Bridge)?;
    let connections = connections_of(table, identity.lane)?;
    let turns = turns_of(table)?;
    let panel = known_panel_of(table)?;
    Ok(Settings {
        identity,
        places,
        bridge: bridge.unwrap_or(false),
        connections,
        turns,
        panel,
    })
}

fn identity_of(alloc: Global, table: &Table) -> Result<Identity, SettingsError>
    ensures value { Reads (identity_of (table_view table.now)) result }
    ensures within { IfOk result (λ identity. identity.lane ≤ 999) }
{
    let number = number_at(table, "number", ConfigKey::Number, 1, 4_294_967_295)?;
    let machine_id = id_text_at(alloc, table, "machine_id")?;
    let lane = number_at(table, "lane", ConfigKey::Lane, 1, 999)?;
    Ok(Identity {
        number: number as u32,
        machine_id,
        lane: lane as u32,
    })
}

fn places_of(table: &Table) -> Result<Places, SettingsError>
    ensures { Reads (places_of (table_view table.now)) result }
{
    let capacity = number_at(table, "capacity", ConfigKey::Capacity, 1, 1024)?;
    let used = optional_number_at(table, "used", ConfigKey::Used, 0, 281_474_976_710_655)?;
    Ok(Places {
        capacity: capacity as u32,
        used: used.unwrap_or(0),
    })
}

fn connections_of(table: &Table, lane: u32) -> Result<Connections, SettingsError>
    requires { lane ≤ 999 }
    ensures { Reads (connections_of lane (table_view table.now)) result }
{
    let upstream = optional_address_at(table, "upstream")?;
    let downstream_port = optional_number_at(
        table,
        "downstream_port",
        ConfigKey::DownstreamPort,
        1,
        65_535,
    )?;
    let supervisory_port = optional_number_at(
        table,
        "supervisory_port",
        ConfigKey::SupervisoryPort,
        1,
        65_535,
    )?;
    let panel_port = number_at(table, "panel_port", ConfigKey::PanelPort, 1, 65_535)?;
    let config_port = optional_number_at(table, "config_port", ConfigKey::ConfigPort, 1, 65_535)?;
    Ok(Connections {
        upstream,
        downstream_port: port_or(downstream_port, FIRST_PORT + lane),
        supervisory_port: port_of(supervisory_port),
        panel_port: panel_port as u16,
        config_port: port_of(config_port),
    })
}

/// The port that was given, if one was.
fn port_of(port: Option<u64>) -> Option<u16>
    requires { ForSome port (λ n. n ≤ 65535) }
    ensures { result ≡ port }
{
    match port {
        Some(port) => Some(port as u16),
        None => None,
    }
}

/// The port that was given, or else this one.
fn port_or(port: Option<u64>, other: u32) -> u16
    requires given { ForSome port (λ n. n ≤ 65535) }
    requires else_one { other ≤ 65535 }
    ensures { result ≡ unwrap_or port other }
{
    match port {
        Some(port) => port as u16,
        None => other as u16,
    }
}

/// After how many turns it ends.
fn turns_of(table: &Table) -> Result<u64, SettingsError>
    ensures { Reads (turns_of (table_view table.now)) result }
{
    number_at(table, "turns", ConfigKey::Turns, 1, 1_000_000_000_000)
}

/// How it stands with its panel, where no key has an unknown name.
fn known_panel_of(table: &Table) -> Result<Panel, SettingsError>
    ensures { Reads (known_panel_of (table_view table.now)) result }
{
    let panel = panel_of(table)?;
    if !are_known(table) {
        return Err(SettingsError::Refused(ConfigKey::Unknown, ConfigWhy::UnknownKey));
    }
    Ok(panel)
}

fn panel_of(table: &Table) -> Result<Panel, SettingsError>
    ensures { Reads (panel_of (table_view table.now)) result }
{
    let drives = optional_switch_at(table, "drives", ConfigKey::Drives)?;
    let anywhere = optional_switch_at(table, "panel_anywhere", ConfigKey::PanelAnywhere)?;
    Ok(Panel {
        drives: drives.unwrap_or(false),
        anywhere: anywhere.unwrap_or(false),
    })
}

fn are_known(table: &Table) -> bool
    ensures { result ≡ are_known (table_view table.now) }
{
    are_known_keys(table)
}

fn are_known_keys(table: &Table) -> bool
    ensures { result ≡ list_all (λ key. is_known (string_bytes key)) (keys table.now) }
{
    table.keys().all(|key| is_known(key.as_str()))
}

fn is_known(key: &str) -> bool
    ensures { result ≡ is_known key.now }
{
    is_known_of_machine(key) || is_known_of_connections(key) || is_known_of_panel(key)
}

fn is_known_of_panel(key: &str) -> bool
    ensures { result ≡ is_known_of_panel key.now }
{
    key == "drives" || key == "panel_anywhere"
}

fn is_known_of_machine(key: &str) -> bool
    ensures { result ≡ is_known_of_machine key.now }
{
    key == "number"
        || key == "machine_id"
        || key == "lane"
        || key == "capacity"
        || key == "used"
        || key == "bridge"
}

fn is_known_of_connections(key: &str) -> bool
    ensures { result ≡ is_known_of_connections key.now }
{
    key == "upstream"
        || key == "downstream_port"
        || key == "supervisory_port"
        || key == "panel_port"
        || key == "config_port"
        || key == "turns"
}
