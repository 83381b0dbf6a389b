ghost use Rattle.std.specs.Prelude.{◌≡◌, ◌<◌, ◌≤◌, ◌^◌, ℕ, pos, None, Some, Ok, Err, IfOk, IfSome, option_map};
ghost use Rattle.toml.specs.Data.{get_member};
ghost use Rattle.toml.specs.View.{view, table_view};
ghost use Rattle.node_settings.specs.Settings.{Reads, named};
ghost use Rattle.node_settings.specs.Value.{number_as, number_in, id_text_as, id_text_of, address_as, switch_as, required, optional};
ghost use Rattle.node_settings.specs.declared.key.ConfigKey.TheVariants as keys;

use crate::key::{ConfigKey, ConfigWhy, SettingsError};
use line_base::{Text, TextError};
use line_outside::{Address, address_of};
use std::alloc::Global;
use toml::{Table, Value};

/// The most bytes of a machine's id text.
const MOST_ID_BYTES: usize = 64;

/// What stands at a key.
fn member_at<'a>(table: &'a Table, key: &str) -> Option<&'a Value>
    ensures { option_map (λ value. view value.now) result
        ≡ get_member key.now (table_view table.now) }
{
    table.get(key)
}

/// A number between two bounds at a key.
pub fn number_at(
    table: &Table,
    key: &str,
    name: ConfigKey,
    low: u64,
    high: u64,
) -> Result<u64, SettingsError>
    ensures value { Reads (named name
        (required (number_as low high) (get_member key.now (table_view table.now)))) result }
    ensures within { IfOk result (λ n. n ≤ high) }
{
    match member_at(table, key) {
        Some(value) => number_of(value, name, low, high),
        None => Err(SettingsError::Refused(name, ConfigWhy::Missing)),
    }
}

/// The same, where the key may be missing.
pub fn optional_number_at(
    table: &Table,
    key: &str,
    name: ConfigKey,
    low: u64,
    high: u64,
) -> Result<Option<u64>, SettingsError>
    ensures value { Reads (named name
        (optional (number_as low high) (get_member key.now (table_view table.now)))) result }
    ensures within { IfOk result (λ found. IfSome found (λ n. n ≤ high)) }
{
    match member_at(table, key) {
        Some(value) => match number_of(value, name, low, high) {
            Ok(number) => Ok(Some(number)),
            Err(error) => Err(error),
        },
        None => Ok(None),
    }
}

fn number_of(value: &Value, name: ConfigKey, low: u64, high: u64) -> Result<u64, SettingsError>
    ensures value { Reads (named name (number_as low high (view value.now))) result }
    ensures within { IfOk result (λ n. n ≤ high) }
{
    match value.as_integer() {
        Some(number) => number_in(number, name, low, high),
        None => Err(SettingsError::Refused(name, ConfigWhy::WrongKind)),
    }
}

fn number_in(number: i64, name: ConfigKey, low: u64, high: u64) -> Result<u64, SettingsError>
    ensures value { Reads (named name (number_in low high number)) result }
    ensures within { IfOk result (λ n. n ≤ high) }
{
    if number < 0 {
        return Err(SettingsError::Refused(name, ConfigWhy::OutOfRange));
    }
    let number = number as u64;
    if number < low || number > high {
        return Err(SettingsError::Refused(name, ConfigWhy::OutOfRange));
    }
    Ok(number)
}

/// The id text of a machine at a key.
pub fn id_text_at(alloc: Global, table: &Table, key: &str) -> Result<Text, SettingsError>
    ensures { Reads
        (named keys.MachineId (required id_text_as (get_member key.now (table_view table.now))))
        result }
{
    match member_at(table, key) {
        Some(value) => id_text_as(alloc, value),
        None => Err(refused(ConfigWhy::Missing)),
    }
}

fn id_text_as(alloc: Global, value: &Value) -> Result<Text, SettingsError>
    ensures { Reads (named keys.MachineId (id_text_as (view value.now))) result }
{
    match value.as_str() {
        Some(text) => id_text_of(alloc, text.as_bytes()),
        None => Err(refused(ConfigWhy::WrongKind)),
    }
}

fn id_text_of(alloc: Global, bytes: &[u8]) -> Result<Text, SettingsError>
    ensures { Reads (named keys.MachineId (id_text_of bytes.now)) result }
{
    let count = bytes.len();
    if count == 0 || count > MOST_ID_BYTES {
        return Err(refused(ConfigWhy::OutOfRange));
    }
    match Text::read(alloc, bytes) {
        Ok(text) => Ok(text),
        Err(TextError::Memory) => Err(SettingsError::Memory),
        Err(TextError::BadChar) => Err(refused(ConfigWhy::OutOfRange)),
        Err(TextError::TooLong) => unreachable!(),
    }
}

fn refused(why: ConfigWhy) -> SettingsError
    ensures { result ≡ SettingsError.Refused keys.MachineId why }
{
    SettingsError::Refused(ConfigKey::MachineId, why)
}

/// The address of the upstream neighbour at a key, which may be missing.
pub fn optional_address_at(table: &Table, key: &str) -> Result<Option<Address>, SettingsError>
    ensures { Reads
        (named keys.Upstream (optional address_as (get_member key.now (table_view table.now))))
        result }
{
    match member_at(table, key) {
        Some(value) => match address_as(value) {
            Ok(address) => Ok(Some(address)),
            Err(why) => Err(SettingsError::Refused(ConfigKey::Upstream, why)),
        },
        None => Ok(None),
    }
}

fn address_as(value: &Value) -> Result<Address, ConfigWhy>
    ensures { result ≡ address_as (view value.now) }
{
    match value.as_str() {
        Some(text) => match address_of(text.as_bytes()) {
            Some(address) => Ok(address),
            None => Err(ConfigWhy::OutOfRange),
        },
        None => Err(ConfigWhy::WrongKind),
    }
}

/// Whether something is so, at a key which may be missing.
pub fn optional_switch_at(
    table: &Table,
    key: &str,
    name: ConfigKey,
) -> Result<Option<bool>, SettingsError>
    ensures { Reads
        (named name (optional switch_as (get_member key.now (table_view table.now)))) result }
{
    match member_at(table, key) {
        Some(value) => match switch_as(value) {
            Ok(on) => Ok(Some(on)),
            Err(why) => Err(SettingsError::Refused(name, why)),
        },
        None => Ok(None),
    }
}

fn switch_as(value: &Value) -> Result<bool, ConfigWhy>
    ensures { result ≡ switch_as (view value.now) }
{
    match value.as_bool() {
        Some(on) => Ok(on),
        None => Err(ConfigWhy::WrongKind),
    }
}
