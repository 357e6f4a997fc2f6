ghost use Rattle.std.specs.Prelude.{IfOk};
ghost use Rattle.toml.specs.View.{table_view};
ghost use Rattle.site_config.specs.Fields.{Gives};
ghost use Rattle.site_config.specs.Valid.{IsConfig};
ghost use Rattle.site_config.specs.Configuration.{config_in, config_of_bytes, document};

use crate::limits::MAX_BYTES;
use crate::sections::{count_of, details_in, gauges_in, grid_of};
use crate::{Config, ConfigFault};
use calibration::{Items, Setup};
use std::alloc::Global;
use toml::Table;

/// What the bytes of a configuration mean, or the first fault in them.
#[tactic(auto, unfolding(crate::specs::Configuration::config_of_bytes), using(crate::proofs::Valid::given_valid))]
pub fn read(alloc: Global, bytes: &[u8]) -> Result<Config, ConfigFault>
    ensures meaning { Gives (λ c. c) result (config_of_bytes bytes.now) }
    ensures valid { IfOk result IsConfig }
{
    if bytes.len() > MAX_BYTES {
        return Err(ConfigFault::TooLong);
    }
    let table = document_of(alloc, bytes)?;
    config_of(alloc, &table)
}

// The table that the bytes spell.
fn document_of(alloc: Global, bytes: &[u8]) -> Result<Table, ConfigFault>
    ensures { Gives (λ t. table_view t) result (document bytes.now) }
{
    match toml::table_from_slice(alloc, bytes) {
        Ok(table) => Ok(table),
        Err(error) => {
            if error.is_memory() {
                Err(ConfigFault::OutOfMemory)
            } else {
                Err(ConfigFault::NotToml)
            }
        }
    }
}

// The configuration of a table.
#[tactic(auto, unfolding(crate::specs::Configuration::config_in))]
fn config_of(alloc: Global, root: &Table) -> Result<Config, ConfigFault>
    ensures { Gives (λ c. c) result (config_in (table_view root.now)) }
{
    let grid = grid_of(root)?;
    let (block, workers) = count_of(root)?;
    let gauges = gauges_in(alloc, root)?;
    let details = details_in(alloc, &gauges.names, root)?;
    Ok(Config {
        setup: Setup {
            grid,
            gains: Items::from_vec(gauges.gains),
        },
        gauges: Items::from_vec(gauges.names),
        details: Items::from_vec(details),
        block,
        workers,
    })
}
