ghost use Rattle.std.specs.Prelude.{◌≡◌, ◌≤◌, ◌≤ℤ◌, ℤ, option_map, IfOk};
ghost use Rattle.toml.specs.Data.{get_member};
ghost use Rattle.toml.specs.View.{table_view, view};
ghost use Rattle.site_config.specs.Fields.{Gives, number_in, number_at, number_or, natural_at, natural_or, text_at, name_at, file_at, value_at};

use crate::limits::MAX_FILE_NAME_BYTES;
use crate::names::{is_in_limits, is_name};
use crate::{ConfigFault, Key, KeyName, Part};
use std::alloc::Global;
use toml::{Table, Value};

/// The value at a key.
pub fn entry<'a>(table: &'a Table, key: &str) -> Option<&'a Value>
    ensures { option_map (λ v. view v.now) result ≡ get_member key.now (table_view table.now) }
{
    table.get(key)
}

// The value at a key that has to be there.
#[tactic(auto, unfolding(crate::specs::Fields::value_at))]
fn value_at<'a>(table: &'a Table, key: Key) -> Result<&'a Value, ConfigFault>
    ensures { Gives (λ v. view v.now) result (value_at key (table_view table.now)) }
{
    match entry(table, key.name.as_str()) {
        None => Err(ConfigFault::Missing(key)),
        Some(value) => Ok(value),
    }
}

// The whole number of a value, within its limits.
#[tactic(auto, unfolding(crate::specs::Fields::number_in))]
fn number_in(value: &Value, key: Key, low: i64, high: i64) -> Result<i64, ConfigFault>
    ensures given { Gives (λ n. n) result (number_in key low high (view value.now)) }
    ensures from { IfOk result (λ n. low ≤ℤ n) }
    ensures to { IfOk result (λ n. n ≤ℤ high) }
{
    let Some(n) = value.as_integer() else {
        return Err(ConfigFault::Kind(key));
    };
    if n < low {
        return Err(ConfigFault::Limit(key));
    }
    if high < n {
        return Err(ConfigFault::Limit(key));
    }
    Ok(n)
}

/// The whole number at a key that has to be there.
#[tactic(auto, unfolding(crate::specs::Fields::number_at))]
pub fn number_at(table: &Table, key: Key, low: i64, high: i64) -> Result<i64, ConfigFault>
    ensures given { Gives (λ n. n) result (number_at key low high (table_view table.now)) }
    ensures from { IfOk result (λ n. low ≤ℤ n) }
    ensures to { IfOk result (λ n. n ≤ℤ high) }
{
    let value = value_at(table, key)?;
    number_in(value, key, low, high)
}

/// The whole number at a key, or its default.
#[tactic(auto, unfolding(crate::specs::Fields::number_or))]
pub fn number_or(
    default: i64,
    table: &Table,
    key: Key,
    low: i64,
    high: i64,
) -> Result<i64, ConfigFault>
    requires low { low ≤ℤ default }
    requires high { default ≤ℤ high }
    ensures given { Gives (λ n. n) result (number_or default key low high (table_view table.now)) }
    ensures from { IfOk result (λ n. low ≤ℤ n) }
    ensures to { IfOk result (λ n. n ≤ℤ high) }
{
    match entry(table, key.name.as_str()) {
        None => Ok(default),
        Some(value) => number_in(value, key, low, high),
    }
}

/// The natural number at a key that has to be there.
#[tactic(auto, unfolding(crate::specs::Fields::natural_at))]
pub fn natural_at(table: &Table, key: Key, low: u32, high: u32) -> Result<u32, ConfigFault>
    ensures given { Gives (λ n. n) result (natural_at key low high (table_view table.now)) }
    ensures from { IfOk result (λ n. low ≤ n) }
    ensures to { IfOk result (λ n. n ≤ high) }
{
    let n = number_at(table, key, low as i64, high as i64)?;
    Ok(n.unsigned_abs() as u32)
}

/// The natural number at a key, or its default.
#[tactic(auto, unfolding(crate::specs::Fields::natural_or))]
pub fn natural_or(
    default: u32,
    table: &Table,
    key: Key,
    low: u32,
    high: u32,
) -> Result<u32, ConfigFault>
    requires from { low ≤ default }
    requires to { default ≤ high }
    ensures given { Gives (λ n. n) result (natural_or default key low high (table_view table.now)) }
    ensures from { IfOk result (λ n. low ≤ n) }
    ensures to { IfOk result (λ n. n ≤ high) }
{
    let n = number_or(default as i64, table, key, low as i64, high as i64)?;
    Ok(n.unsigned_abs() as u32)
}

/// The text at a key that has to be there.
#[tactic(auto, unfolding(crate::specs::Fields::text_at))]
pub fn text_at<'a>(table: &'a Table, key: Key) -> Result<&'a str, ConfigFault>
    ensures { Gives (λ s. s.now) result (text_at key (table_view table.now)) }
{
    let value = value_at(table, key)?;
    match value.as_str() {
        None => Err(ConfigFault::Kind(key)),
        Some(text) => Ok(text),
    }
}

/// The name at a key.
#[tactic(auto, unfolding(crate::specs::Fields::name_at))]
pub fn name_at<'a>(table: &'a Table, key: Key) -> Result<&'a str, ConfigFault>
    ensures { Gives (λ s. s.now) result (name_at key (table_view table.now)) }
{
    let text = text_at(table, key)?;
    if !is_name(text) {
        return Err(ConfigFault::Limit(key));
    }
    Ok(text)
}

/// The name of a file at a key.
#[tactic(auto, unfolding(crate::specs::Fields::file_at))]
pub fn file_at<'a>(table: &'a Table, key: Key) -> Result<&'a str, ConfigFault>
    ensures { Gives (λ s. s.now) result (file_at key (table_view table.now)) }
{
    let text = text_at(table, key)?;
    if !is_in_limits(1, MAX_FILE_NAME_BYTES, text.len()) {
        return Err(ConfigFault::Limit(key));
    }
    Ok(text)
}
