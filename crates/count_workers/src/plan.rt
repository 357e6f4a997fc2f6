use calibration::Grid;

/// What rounds are prepared for.
#[derive(Clone, Copy, Debug, PartialEq, Eq, Drop)]
pub struct Plan {
    /// The classes.
    pub grid: Grid,
    /// How many gauges there are, 1 to 32.
    pub gauges: u16,
    /// How many samples a block has, 1 to 4096.
    pub block: u32,
    /// How many workers count, 1 to [`calibration::MAX_WORKERS`].
    pub workers: u8,
}
