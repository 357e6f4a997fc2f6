ghost use Rattle.std.specs.Prelude.{◌≡◌, ◌≤◌, ◌<◌, ◌-◌, ◌/◌, length, map, IfOk};
ghost use Rattle.toml.specs.Data.{as_table, as_array};
ghost use Rattle.toml.specs.View.{view, table_view};
ghost use Rattle.site_config.specs.declared.limits.TheConstants.{MAX_GAUGES};
ghost use Rattle.site_config.specs.Keys.{grid_key, count_key};
ghost use Rattle.site_config.specs.Fields.{Gives, items_in};
ghost use Rattle.site_config.specs.Configuration.{grid_in, count_in, count_part, gauges_in, details_in, details_part};

use crate::details::details_of;
use crate::fields::{entry, natural_at, natural_or, number_at};
use crate::gauges::{GaugesRead, gauges_of};
use crate::limits::{
    DEFAULT_BLOCK, DEFAULT_WORKERS, MAX_BLOCK, MAX_DETAILS, MAX_GAUGES, MAX_WORKERS,
};
use crate::names::is_in_limits;
use crate::{ConfigFault, Gauge, Key, KeyName, NamedDetail, Part};
use calibration::{Grid, MAX_CLASSES, MAX_LOW_KPA, MAX_SPAN, MIN_CLASSES};
use std::alloc::Global;
use toml::{Table, Value};

/// The lowest and the highest lower end, in kPa.
const LEAST_LOW: i64 = -(MAX_LOW_KPA as i64);

const GREATEST_LOW: i64 = MAX_LOW_KPA as i64;

fn grid_key(name: KeyName) -> Key
    ensures { result ≡ grid_key name }
{
    Key {
        part: Part::Grid,
        index: 0,
        name,
    }
}

fn count_key(name: KeyName) -> Key
    ensures { result ≡ count_key name }
{
    Key {
        part: Part::Count,
        index: 0,
        name,
    }
}

/// The grid.
#[tactic(auto, unfolding(crate::specs::Configuration::grid_in))]
pub fn grid_of(root: &Table) -> Result<Grid, ConfigFault>
    ensures { Gives (λ g. g) result (grid_in (table_view root.now)) }
{
    let Some(value) = entry(root, "grid") else {
        return Err(ConfigFault::Missing(grid_key(KeyName::Itself)));
    };
    let Some(part) = value.as_table() else {
        return Err(ConfigFault::Kind(grid_key(KeyName::Itself)));
    };
    let classes = natural_at(
        part,
        grid_key(KeyName::Classes),
        MIN_CLASSES as u32,
        MAX_CLASSES as u32,
    )?;
    let width = natural_at(part, grid_key(KeyName::Width), 1, MAX_SPAN / (classes - 1))?;
    let low = number_at(part, grid_key(KeyName::Low), LEAST_LOW, GREATEST_LOW)?;
    let reference = natural_at(part, grid_key(KeyName::Reference), 1, classes - 1)?;
    match Grid::new(classes as u16, width as u16, low, reference as u16) {
        Ok(grid) => Ok(grid),
        Err(_) => unreachable!(),
    }
}

/// The samples of a block, and the workers.
#[tactic(auto, unfolding(crate::specs::Configuration::count_in))]
pub fn count_of(root: &Table) -> Result<(u32, u8), ConfigFault>
    ensures { Gives (λ c. c) result (count_in (table_view root.now)) }
{
    match entry(root, "count") {
        None => Ok((DEFAULT_BLOCK, DEFAULT_WORKERS as u8)),
        Some(value) => count_part(value),
    }
}

#[tactic(auto, unfolding(crate::specs::Configuration::count_part))]
fn count_part(value: &Value) -> Result<(u32, u8), ConfigFault>
    ensures { Gives (λ c. c) result (count_part (view value.now)) }
{
    let Some(part) = value.as_table() else {
        return Err(ConfigFault::Kind(count_key(KeyName::Itself)));
    };
    let block = natural_or(DEFAULT_BLOCK, part, count_key(KeyName::Block), 1, MAX_BLOCK)?;
    let workers = natural_or(
        DEFAULT_WORKERS,
        part,
        count_key(KeyName::Workers),
        1,
        MAX_WORKERS,
    )?;
    Ok((block, workers as u8))
}

// The items of an array, a number of them within limits.
#[tactic(auto, unfolding(crate::specs::Fields::items_in))]
fn items_of(value: &Value, part: Part, low: usize, high: usize) -> Result<&[Value], ConfigFault>
    ensures given { Gives (λ vs. map view vs.now) result (items_in part low high (view value.now)) }
    ensures few { IfOk result (λ vs. length vs.now ≤ high) }
{
    let whole = Key {
        part,
        index: 0,
        name: KeyName::Itself,
    };
    let Some(items) = value.as_array() else {
        return Err(ConfigFault::Kind(whole));
    };
    if !is_in_limits(low, high, items.len()) {
        return Err(ConfigFault::Limit(whole));
    }
    Ok(items.as_slice())
}

/// The gauges.
#[tactic(auto, unfolding(crate::specs::Configuration::gauges_in))]
pub fn gauges_in(alloc: Global, root: &Table) -> Result<GaugesRead, ConfigFault>
    ensures given { Gives (λ g. g) result (gauges_in (table_view root.now)) }
    ensures few { IfOk result (λ g. length g.names ≤ MAX_GAUGES) }
{
    let Some(value) = entry(root, "gauge") else {
        return Err(ConfigFault::Missing(Key {
            part: Part::Gauge,
            index: 0,
            name: KeyName::Itself,
        }));
    };
    gauges_of(alloc, items_of(value, Part::Gauge, 1, MAX_GAUGES)?)
}

/// The details, each on one of these gauges.
#[tactic(auto, unfolding(crate::specs::Configuration::details_in))]
pub fn details_in(
    alloc: Global,
    gauges: &[Gauge],
    root: &Table,
) -> Result<Vec<NamedDetail>, ConfigFault>
    requires gauges { length gauges.now ≤ MAX_GAUGES }
    ensures { Gives (λ d. d.items) result (details_in gauges.now (table_view root.now)) }
{
    match entry(root, "detail") {
        None => Ok(Vec::new(alloc)),
        Some(value) => details_part(alloc, gauges, value),
    }
}

#[tactic(auto, unfolding(crate::specs::Configuration::details_part))]
fn details_part(
    alloc: Global,
    gauges: &[Gauge],
    value: &Value,
) -> Result<Vec<NamedDetail>, ConfigFault>
    requires gauges { length gauges.now ≤ MAX_GAUGES }
    ensures { Gives (λ d. d.items) result (details_part gauges.now (view value.now)) }
{
    details_of(
        alloc,
        gauges,
        items_of(value, Part::Detail, 0, MAX_DETAILS)?,
    )
}
