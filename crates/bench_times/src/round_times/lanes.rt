ghost use Rattle.std.specs.Prelude.{IfOk};
ghost use Rattle.count_workers.specs.lane_loans.Lent.{CanRound};

use calibration::Gain;
use count_workers::lane_loans::Lane;
use outside::SteadySource;
use recording::lane_ends::End;
use std::alloc::{AllocError, Global};

/// A lane of so many made samples, from -64 to 63.
pub fn lane(
    alloc: Global,
    gauge: u16,
    gain: Gain,
    samples: u32,
) -> Result<Lane<SteadySource>, AllocError>
    ensures { IfOk result (CanRound gauge) }
{
    let mut bytes = Vec::new(alloc);
    let mut state = gauge as u64;
    for _ in 0..samples {
        state = state
            .wrapping_mul(6364136223846793005)
            .wrapping_add(1442695040888963407);
        bytes.extend_from_slice(&((state >> 57) as i32 - 64).to_le_bytes())?;
    }
    Ok(Lane {
        gauge,
        gain,
        at: 0,
        end: End::More,
        src: Some(SteadySource::new(bytes)),
    })
}
