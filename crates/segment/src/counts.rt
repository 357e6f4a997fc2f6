ghost use Rattle.std.specs.Prelude.{◌≡◌, ◌+◌, ◌<◌, ◌^◌};

/// How many samples there are, and how many of them are used, missing and refused.
#[derive(Clone, Copy, Debug, PartialEq, Eq)]
pub struct SampleCounts {
    pub samples: u64,
    pub used: u64,
    pub missing: u64,
    pub refused: u64,
}

impl SampleCounts {
    ghost use Rattle.segment.specs.Counts.{kinds_sum};

    /// Of no samples.
    pub fn new() -> SampleCounts
        ensures { result ≡ record { samples = 0; used = 0; missing = 0; refused = 0 } }
    {
        SampleCounts {
            samples: 0,
            used: 0,
            missing: 0,
            refused: 0,
        }
    }

    /// Of these samples and of others.
    pub fn plus(&self, others: &SampleCounts) -> SampleCounts
        requires samples { self.now.samples + others.now.samples < 2 ^ 64 }
        requires used { self.now.used + others.now.used < 2 ^ 64 }
        requires missing { self.now.missing + others.now.missing < 2 ^ 64 }
        requires refused { self.now.refused + others.now.refused < 2 ^ 64 }
        ensures { result ≡ kinds_sum self.now others.now }
    {
        SampleCounts {
            samples: self.samples + others.samples,
            used: self.used + others.used,
            missing: self.missing + others.missing,
            refused: self.refused + others.refused,
        }
    }
}
