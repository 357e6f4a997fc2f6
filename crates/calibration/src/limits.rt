//! Limits that the configuration of a site shares with the rounds of counting, the store and the
//! printed texts, and those that the words of the command line share with the command `demo`.

/// The most gauges of a site.
pub const MAX_GAUGES: u16 = 32;

/// The most bytes of the name of a gauge or a detail.
pub const MAX_NAME_BYTES: usize = 32;

/// The most samples of a block.
pub const MAX_BLOCK: u32 = 4096;

/// The most workers of a round.
pub const MAX_WORKERS: u8 = 8;

/// The most samples of a recording.
pub const MAX_SAMPLES: u64 = (1 << 40) - 1;

/// The greatest seed of made recordings.
pub const MAX_SEED: u64 = 9_223_372_036_854_775_807;

/// The most samples of each made recording.
pub const MAX_DEMO_SAMPLES: u64 = 1_000_000;
