use calibration::{Items, Setup};
use recording::Head;

/// The bytes of a store's head before those of its gauges.
pub const FRONT_LENGTH: usize = 22;

/// The bytes that a store's head has of each gauge.
pub const GAUGE_LENGTH: usize = 40;

/// What a store is made for, with the head of each gauge's recording.
#[derive(Debug, Drop)]
pub struct StoreHead {
    pub setup: Setup,
    pub heads: Items<Head>,
}
