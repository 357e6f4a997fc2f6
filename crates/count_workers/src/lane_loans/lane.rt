use calibration::Gain;
use outside::Source;
use recording::lane_ends::End;

/// A recording that is read in rounds.
#[derive(Drop)]
pub struct Lane<C: Source> {
    /// Its gauge.
    pub gauge: u16,
    /// What a raw value of it means.
    pub gain: Gain,
    /// How many samples were read.
    pub at: u64,
    /// How the last round ended. A lane that has not ended has `More`.
    pub end: End,
    /// What it is read from. A round takes it, and puts it back.
    pub src: Option<C>,
}
