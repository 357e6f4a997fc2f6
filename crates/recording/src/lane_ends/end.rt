/// How the reading of a lane ended.
#[derive(Clone, Copy, Debug, PartialEq, Eq, Drop)]
pub enum End {
    /// All samples that were wanted came. More may follow.
    More,
    /// Input ended after a whole sample.
    Ended,
    /// Input ended so many bytes after a whole sample: 1, 2 or 3.
    Torn(u8),
    /// A take failed.
    ReadFault,
    /// There is a sample more than a recording may have.
    TooLong,
}

/// What was read of a lane.
#[derive(Clone, Copy, Debug, PartialEq, Eq, Drop)]
pub struct LaneRead {
    /// How many samples.
    pub n: usize,
    /// How it ended.
    pub end: End,
}
