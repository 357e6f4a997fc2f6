ghost use Rattle.std.specs.Prelude.{◌≡◌, ◌≤◌, ◌<◌, [], length, map, IfOk};
ghost use Rattle.toml.specs.Data.{as_table};
ghost use Rattle.toml.specs.View.{view};
ghost use Rattle.site_config.specs.declared.limits.TheConstants.{MAX_GAUGES};
ghost use Rattle.site_config.specs.Fields.{Gives, unless_taken_before, place_of};
ghost use Rattle.site_config.specs.Configuration.{gauge_in, gauges_after, gauge_names};

use crate::fields::{file_at, name_at, natural_or, number_at, number_or};
use crate::{ConfigFault, Gauge, Key, KeyName, Part, Text};
use calibration::{Gain, MAX_DEN, MAX_NUM, MAX_OFFSET};
use std::alloc::{AllocError, Global};
use std::marker::Model;
use toml::Value;

/// The limits of a numerator, and of an offset in kPa.
const LEAST_NUM: i64 = -(MAX_NUM as i64);

const GREATEST_NUM: i64 = MAX_NUM as i64;

const LEAST_OFFSET: i64 = -(MAX_OFFSET as i64);

const GREATEST_OFFSET: i64 = MAX_OFFSET as i64;

/// Gauges that were read, and the gain of each.
#[derive(Debug, Drop)]
pub struct GaugesRead {
    pub names: Vec<Gauge>,
    pub gains: Vec<Gain>,
}

impl Model for GaugesRead {
    ghost use Rattle.site_config.specs.Configuration.{Gauges};

    ghost Value = { Gauges };

    ghost view = { λ g. record { names = g.names.items; gains = g.gains.items } };
}

/// The gauges of the tables of an array.
pub fn gauges_of(alloc: Global, values: &[Value]) -> Result<GaugesRead, ConfigFault>
    requires few { length values.now ≤ MAX_GAUGES }
    ensures given { Gives (λ g. g) result (gauges_after (record { names = []; gains = [] })
        (map view values.now)) }
    ensures few { IfOk result (λ g. length g.names ≤ MAX_GAUGES) }
{
    let mut read = GaugesRead {
        names: Vec::new(alloc),
        gains: Vec::new(alloc),
    };
    for value in values {
        let (gauge, gain) = gauge_of(alloc, &read.names, value)?;
        read.names.push(gauge)?;
        read.gains.push(gain)?;
    }
    Ok(read)
}

/// The place of the gauge of a name.
pub fn place_of_gauge(gauges: &[Gauge], name: &str) -> Option<u16>
    requires few { length gauges.now ≤ MAX_GAUGES }
    ensures { result ≡ place_of name.now (gauge_names gauges.now) }
{
    for i in 0..gauges.len() {
        if gauges[i].name.as_str() == name {
            return Some(i as u16);
        }
    }
    None
}

/// A copy of a text.
pub fn text_of(alloc: Global, text: &str) -> Result<Text, AllocError>
    ensures { IfOk result (λ t. t ≡ text.now) }
{
    Ok(Text::from_string(String::from_str(alloc, text)?))
}

// A key of the gauge of this number.
fn key_of(index: usize, name: KeyName) -> Key
    requires { index ≤ MAX_GAUGES }
    ensures { result ≡ record { part = Part.Gauge; index = index; name = name } }
{
    Key {
        part: Part::Gauge,
        index: index as u16,
        name,
    }
}

// The gauge and the gain of a table, behind the gauges before it.
#[tactic(auto, unfolding(crate::specs::Configuration::gauge_in))]
fn gauge_of(alloc: Global, before: &[Gauge], value: &Value) -> Result<(Gauge, Gain), ConfigFault>
    requires few { length before.now ≤ MAX_GAUGES }
    ensures { Gives (λ g. g) result (gauge_in before.now (view value.now)) }
{
    let i = before.len();
    let Some(part) = value.as_table() else {
        return Err(ConfigFault::Kind(key_of(i, KeyName::Itself)));
    };
    let name = name_at(part, key_of(i, KeyName::Name))?;
    let file = file_at(part, key_of(i, KeyName::File))?;
    let num = number_at(part, key_of(i, KeyName::Num), LEAST_NUM, GREATEST_NUM)?;
    let den = natural_or(1, part, key_of(i, KeyName::Den), 1, MAX_DEN)?;
    let offset = number_or(
        0,
        part,
        key_of(i, KeyName::Offset),
        LEAST_OFFSET,
        GREATEST_OFFSET,
    )?;
    let name = unless_taken_before(before, name)?;
    let gauge = Gauge {
        name: text_of(alloc, name)?,
        file: text_of(alloc, file)?,
    };
    match Gain::new(num, den, offset) {
        Ok(gain) => Ok((gauge, gain)),
        Err(_) => unreachable!(),
    }
}

// The name, unless a gauge before has it.
#[tactic(auto, unfolding(crate::specs::Fields::unless_taken_before))]
fn unless_taken_before<'a>(before: &[Gauge], name: &'a str) -> Result<&'a str, ConfigFault>
    requires few { length before.now ≤ MAX_GAUGES }
    ensures { Gives (λ s. s.now) result (unless_taken_before Part.Gauge (length before.now)
        (gauge_names before.now) name.now) }
{
    match place_of_gauge(before, name) {
        None => Ok(name),
        Some(first) => Err(ConfigFault::Double {
            part: Part::Gauge,
            first,
            second: before.len() as u16,
        }),
    }
}
