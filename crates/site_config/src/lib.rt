//! The configuration of a site: what the bytes of a TOML file mean, or the first fault in them.
//!
//! `specs/Configuration.antt` has the meaning, section by section in the order in which faults are
//! told: the grid, the count, the gauges, the details. `specs/Fields.antt` has the rule of one key:
//! it is missing, of another kind, outside its limits, or its value. The grammar is that of the
//! crate `toml`, which `Configuration` names.
//!
//! The code walks the table that `toml` gives in the same order, a function for each definition.
//!
//! Cost: what `toml` takes for at most 64 KiB, and a copy of each name. Names are looked for from
//! the first on.
//!
//! [`recorded`] defines what is recorded of the gauges of a configuration.
#![tactic(auto)]

mod config;
mod details;
mod fault;
mod fields;
mod gauges;
pub mod laws;
mod limits;
mod names;
mod reading;
pub mod recorded;
mod sections;
mod text;

pub use config::{Config, Gauge, NamedDetail};
pub use fault::{ConfigFault, Key, KeyName, Part};
pub use limits::{
    DEFAULT_BLOCK, DEFAULT_WORKERS, MAX_BLOCK, MAX_BYTES, MAX_DETAILS, MAX_FILE_NAME_BYTES,
    MAX_GAUGES, MAX_NAME_BYTES, MAX_WORKERS,
};
pub use reading::read;
pub use text::Text;
