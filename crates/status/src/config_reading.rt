//! The configuration of a site, read from a source.
//!
//! `specs/config_reading/Reading.antt` says which answer comes of which bytes. Of a source that
//! gives more than a configuration may have, one byte more than that is taken.

mod reading;

pub use reading::read_config;
