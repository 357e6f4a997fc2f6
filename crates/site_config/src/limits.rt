/// The most bytes of a configuration.
pub const MAX_BYTES: usize = 65_536;

/// The most gauges; there is at least one.
pub const MAX_GAUGES: usize = calibration::MAX_GAUGES as usize;

/// The most details.
pub const MAX_DETAILS: usize = 64;

/// The most samples of a block; there is at least one.
pub const MAX_BLOCK: u32 = calibration::MAX_BLOCK;

/// The samples of a block where the configuration says nothing.
pub const DEFAULT_BLOCK: u32 = 1024;

/// The most workers; there is at least one.
pub const MAX_WORKERS: u32 = calibration::MAX_WORKERS as u32;

/// The workers where the configuration says nothing.
pub const DEFAULT_WORKERS: u32 = 4;

/// The most bytes of a gauge's or a detail's name; it has at least one.
pub const MAX_NAME_BYTES: usize = calibration::MAX_NAME_BYTES;

/// The most bytes of the name of a file; it has at least one.
pub const MAX_FILE_NAME_BYTES: usize = 255;
