use std::alloc::{AllocError, Global};
use std::fmt;

/// A history of levels below 128 that is made here.
#[derive(Clone, Copy, Debug, PartialEq, Eq)]
pub enum Signal {
    Walk,
    Noise,
    Sine,
}

impl Signal {
    /// All signals, in the order in which they are shown.
    pub const ALL: [Signal; 3] = [Signal::Walk, Signal::Noise, Signal::Sine];
}

impl fmt::Display for Signal {
    fn fmt<W: fmt::Write>(&self, f: &mut fmt::Formatter<W>) -> fmt::Result {
        f.write_str(match self {
            Signal::Walk => "walk",
            Signal::Noise => "noise",
            Signal::Sine => "sine",
        })
    }
}

/// So many levels of a signal.
pub fn levels_of(alloc: Global, signal: Signal, samples: u32) -> Result<Vec<u16>, AllocError> {
    let mut levels = Vec::with_capacity(alloc, samples as usize)?;
    let mut state = 0u64;
    let mut level = 64u16;
    let (mut x, mut y) = (15000i32, 0i32);
    for _ in 0..samples {
        state = state
            .wrapping_mul(6364136223846793005)
            .wrapping_add(1442695040888963407);
        // The point (x, y) goes round.
        x = x.wrapping_sub(y >> 5);
        y = y.wrapping_add(x >> 5);
        level = match signal {
            Signal::Walk => level
                .saturating_add(((state >> 33) % 4) as u16)
                .saturating_sub(((state >> 43) % 4) as u16)
                .min(127),
            Signal::Noise => (state >> 57) as u16,
            Signal::Sine => ((y >> 8) + 64).clamp(0, 127) as u16,
        };
        levels.push(level)?;
    }
    Ok(levels)
}

/// Raw values that are these levels.
pub fn raws_of(alloc: Global, levels: &[u16]) -> Result<Vec<i32>, AllocError> {
    let mut raws = Vec::with_capacity(alloc, levels.len())?;
    for &level in levels {
        raws.push(i32::from(level))?;
    }
    Ok(raws)
}
