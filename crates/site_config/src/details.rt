ghost use Rattle.std.specs.Prelude.{◌≡◌, ◌≤◌, ◌<◌, [], length, map};
ghost use Rattle.toml.specs.Data.{as_table};
ghost use Rattle.toml.specs.View.{view, table_view};
ghost use Rattle.damage.specs.sn_curve.Detail.{categories, is_among};
ghost use Rattle.site_config.specs.declared.limits.TheConstants.{MAX_DETAILS, MAX_GAUGES};
ghost use Rattle.site_config.specs.Keys.{detail_key};
ghost use Rattle.site_config.specs.Fields.{Gives, unless_taken_before, place_of};
ghost use Rattle.site_config.specs.Configuration.{detail_in, details_after, detail_names, curve_in, kind_at, kind_named};

use crate::fields::{name_at, natural_at, text_at};
use crate::gauges::{place_of_gauge, text_of};
use crate::{ConfigFault, Gauge, Key, KeyName, NamedDetail, Part};
use damage::sn_curve::{Detail, DetailFault, Kind};
use std::alloc::Global;
use toml::{Table, Value};

/// The details of the tables of an array.
pub fn details_of(
    alloc: Global,
    gauges: &[Gauge],
    values: &[Value],
) -> Result<Vec<NamedDetail>, ConfigFault>
    requires gauges { length gauges.now ≤ MAX_GAUGES }
    requires few { length values.now ≤ MAX_DETAILS }
    ensures { Gives (λ d. d.items) result (details_after gauges.now [] (map view values.now)) }
{
    let mut details = Vec::new(alloc);
    for value in values {
        let detail = detail_of(alloc, gauges, &details, value)?;
        details.push(detail)?;
    }
    Ok(details)
}

// A key of the detail of this number.
fn key_of(index: usize, name: KeyName) -> Key
    requires { index ≤ MAX_DETAILS }
    ensures { result ≡ detail_key index name }
{
    Key {
        part: Part::Detail,
        index: index as u16,
        name,
    }
}

// The detail of a table, behind the details before it.
#[tactic(auto, unfolding(crate::specs::Configuration::detail_in))]
fn detail_of(
    alloc: Global,
    gauges: &[Gauge],
    before: &[NamedDetail],
    value: &Value,
) -> Result<NamedDetail, ConfigFault>
    requires gauges { length gauges.now ≤ MAX_GAUGES }
    requires few { length before.now ≤ MAX_DETAILS }
    ensures { Gives (λ d. d) result (detail_in gauges.now before.now (view value.now)) }
{
    let i = before.len();
    let Some(part) = value.as_table() else {
        return Err(ConfigFault::Kind(key_of(i, KeyName::Itself)));
    };
    let name = name_at(part, key_of(i, KeyName::Name))?;
    let gauge = text_at(part, key_of(i, KeyName::Gauge))?;
    let detail = curve_of(part, i)?;
    let Some(place) = place_of_gauge(gauges, gauge) else {
        return Err(ConfigFault::NoSuchGauge { detail: i as u16 });
    };
    let name = unless_taken_before(before, name)?;
    Ok(NamedDetail {
        name: text_of(alloc, name)?,
        gauge: place,
        detail,
    })
}

// The kind of stress, the category and the partial factor.
#[tactic(auto, unfolding(crate::specs::Configuration::curve_in, crate::specs::Configuration::choice_at))]
fn curve_of(part: &Table, i: usize) -> Result<Detail, ConfigFault>
    requires { i ≤ MAX_DETAILS }
    ensures { Gives (λ d. d) result (curve_in i (table_view part.now)) }
{
    let kind = kind_of(part, key_of(i, KeyName::Kind))?;
    let category = natural_at(part, key_of(i, KeyName::Category), 0, 65535)? as u16;
    if !is_category(kind, category) {
        return Err(ConfigFault::Limit(key_of(i, KeyName::Category)));
    }
    let gamma = natural_at(part, key_of(i, KeyName::Gamma), 0, 65535)? as u16;
    match Detail::new(kind, category, gamma) {
        Ok(detail) => Ok(detail),
        Err(_) => Err(ConfigFault::Limit(key_of(i, KeyName::Gamma))),
    }
}

// Whether details of this kind may have the category. It is told before the factor is looked at, so
// one that each detail may have stands for it.
fn is_category(kind: Kind, category: u16) -> bool
    ensures { result ≡ is_among category (categories kind) }
{
    Detail::new(kind, category, 100).is_ok()
}

#[tactic(auto, unfolding(crate::specs::Configuration::kind_at))]
fn kind_of(part: &Table, key: Key) -> Result<Kind, ConfigFault>
    ensures { Gives (λ k. k) result (kind_at key (table_view part.now)) }
{
    let text = text_at(part, key)?;
    match kind_named(text) {
        None => Err(ConfigFault::Limit(key)),
        Some(kind) => Ok(kind),
    }
}

fn kind_named(text: &str) -> Option<Kind>
    ensures { result ≡ kind_named text.now }
{
    if text == "normal" {
        return Some(Kind::Normal);
    }
    if text == "shear" {
        return Some(Kind::Shear);
    }
    None
}

// The name, unless a detail before has it.
#[tactic(auto, unfolding(crate::specs::Fields::unless_taken_before))]
fn unless_taken_before<'a>(before: &[NamedDetail], name: &'a str) -> Result<&'a str, ConfigFault>
    requires few { length before.now ≤ MAX_DETAILS }
    ensures { Gives (λ s. s.now) result (unless_taken_before Part.Detail (length before.now)
        (detail_names before.now) name.now) }
{
    match place_of_detail(before, name) {
        None => Ok(name),
        Some(first) => Err(ConfigFault::Double {
            part: Part::Detail,
            first,
            second: before.len() as u16,
        }),
    }
}

// The place of the detail of a name.
fn place_of_detail(details: &[NamedDetail], name: &str) -> Option<u16>
    requires few { length details.now ≤ MAX_DETAILS }
    ensures { result ≡ place_of name.now (detail_names details.now) }
{
    for i in 0..details.len() {
        if details[i].name.as_str() == name {
            return Some(i as u16);
        }
    }
    None
}
