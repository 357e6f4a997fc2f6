ghost use Rattle.std.specs.Prelude.{◌≤◌};

use crate::block_times::plan::History;
use std::alloc::{AllocError, Global};

/// How many levels a history has.
const SAMPLES: u32 = 1 << 21;

/// The levels of a history over some classes. A walk takes steps of up to seven eighths of a class.
pub fn levels_of(alloc: Global, history: History, classes: u16) -> Result<Vec<u16>, AllocError>
    requires some { 1 ≤ classes }
{
    let eighths = classes as u32 * 8;
    let mut levels = Vec::with_capacity(alloc, SAMPLES as usize)?;
    let mut state = 1u64;
    let mut at = 0u32;
    for _ in 0..SAMPLES {
        state = state
            .wrapping_mul(6364136223846793005)
            .wrapping_add(1442695040888963407);
        at = (at % eighths + (state >> 60) as u32 % 15 + eighths - 7) % eighths;
        levels.push(match history {
            History::Noise => ((state >> 40) as u32 % classes as u32) as u16,
            History::Walk => (at / 8) as u16,
        })?;
    }
    Ok(levels)
}
