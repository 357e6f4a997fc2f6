use crate::call_times::digest::Digest;
use calibration::{Classifier, Gain, Grid, Reading};
use std::alloc::{AllocError, Global};
use std::fmt;
use turning_points::three_point::astm;
use turning_points::{Turner, keep_points};

/// How many samples the recording has.
const SAMPLES: u32 = 1 << 19;

/// A call whose work is shown.
#[derive(Clone, Copy, Debug, PartialEq, Eq)]
pub enum Call {
    Level,
    Turner,
    KeepPoints,
    Astm,
}

impl Call {
    /// All calls, in the order in which they are shown.
    pub const ALL: [Call; 4] = [Call::Level, Call::Turner, Call::KeepPoints, Call::Astm];
}

impl fmt::Display for Call {
    fn fmt<W: fmt::Write>(&self, f: &mut fmt::Formatter<W>) -> fmt::Result {
        f.write_str(match self {
            Call::Level => "level",
            Call::Turner => "turner",
            Call::KeepPoints => "keep_points",
            Call::Astm => "astm",
        })
    }
}

/// A random walk between -300 and 300, and its levels.
#[derive(Drop)]
pub struct Recording {
    classifier: Classifier,
    raws: Vec<i32>,
    levels: Vec<u16>,
}

impl Recording {
    /// Makes the samples, and finds their levels.
    pub fn new(alloc: Global) -> Result<Recording, AllocError> {
        let classifier = classifier();
        let raws = walk(alloc)?;
        let mut levels = Vec::new(alloc);
        for &raw in &raws {
            if let Reading::Level(level) = classifier.level(raw) {
                levels.push(level)?;
            }
        }
        Ok(Recording {
            classifier,
            raws,
            levels,
        })
    }

    /// How many samples it has.
    pub fn len(&self) -> usize {
        self.raws.len()
    }
}

// 210 kPa to the raw unit, in 128 classes of 1 N/mm² from -64 N/mm².
fn classifier() -> Classifier {
    match (Gain::new(210, 1, 0), Grid::new(128, 2, -64000, 64)) {
        (Ok(gain), Ok(grid)) => Classifier::new(&gain, &grid),
        _ => unreachable!(),
    }
}

fn walk(alloc: Global) -> Result<Vec<i32>, AllocError> {
    let mut raws = Vec::with_capacity(alloc, SAMPLES as usize)?;
    let mut state = 0u64;
    let mut raw = 0i32;
    for _ in 0..SAMPLES {
        state = state
            .wrapping_mul(6364136223846793005)
            .wrapping_add(1442695040888963407);
        raw = turned_back(
            raw.wrapping_add((state >> 33) as i32 % 10)
                .wrapping_sub((state >> 40) as i32 % 10),
        );
        raws.push(raw)?;
    }
    Ok(raws)
}

fn turned_back(raw: i32) -> i32 {
    raw.clamp(-300, 300)
}

/// A digest of what a call answers over the whole recording.
pub fn answer(alloc: Global, call: Call, recording: &Recording) -> Result<u64, AllocError> {
    match call {
        Call::Level => Ok(levels(&recording.classifier, &recording.raws)),
        Call::Turner => Ok(turner(&recording.levels)),
        Call::KeepPoints => Ok(kept_points(&mut recording.levels.to_vec(alloc)?)),
        Call::Astm => ranges(alloc, &mut recording.levels.to_vec(alloc)?),
    }
}

fn levels(classifier: &Classifier, raws: &[i32]) -> u64 {
    let mut digest = Digest::new();
    for &raw in raws {
        digest.take(match classifier.level(raw) {
            Reading::Level(level) => level as u64,
            Reading::Missing => 1 << 16,
            Reading::Refused => 1 << 17,
        });
    }
    digest.value()
}

fn turner(levels: &[u16]) -> u64 {
    let mut digest = Digest::new();
    let mut turner = Turner::new();
    for &level in levels {
        if let Some(point) = turner.push(level) {
            digest.take(point as u64);
        }
    }
    if let Some(point) = turner.finish() {
        digest.take(point as u64);
    }
    digest.value()
}

fn kept_points(levels: &mut [u16]) -> u64 {
    let count = keep_points(levels);
    let mut digest = Digest::new();
    for &point in &levels[..count] {
        digest.take(point as u64);
    }
    digest.value()
}

fn ranges(alloc: Global, levels: &mut [u16]) -> Result<u64, AllocError> {
    let count = keep_points(levels);
    let mut digest = Digest::new();
    for range in astm(alloc, &levels[..count])?.as_slice() {
        digest.take((range.lo as u64) << 32 | (range.hi as u64) << 8 | range.halves as u64);
    }
    Ok(digest.value())
}
