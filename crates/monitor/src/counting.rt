ghost use Rattle.std.specs.Prelude.{◌≡◌, ◌≤◌, ℤ, List, [], IfOk};
ghost use Rattle.calibration.specs.declared.limits.TheConstants.{MAX_SAMPLES};
ghost use Rattle.monitor.specs.Figures.{AreFigures};
ghost use Rattle.monitor.specs.Printed.{table_grid, table_gain, text_of_samples};

use crate::grid::{CLASSES, grid_of_table};
use recount::RunningCount;
use report::{Page, table_text};
use std::alloc::{AllocError, Global};
use turning_points::three_point::HalfUnits;

/// What a table tells of no samples: how many there are of each kind, and the half units at each
/// range. It takes memory once, 10 bytes for each class.
pub fn no_samples(alloc: Global) -> Result<RunningCount<HalfUnits>, AllocError>
    ensures { IfOk result (λ figures. AreFigures table_grid table_gain figures []) }
{
    let half_units = HalfUnits::new(alloc, CLASSES)?;
    RunningCount::new(alloc, CLASSES, half_units)
}

/// The page with the rainflow table of a recording's samples.
pub fn table_page(alloc: Global, figures: RunningCount<HalfUnits>) -> Result<Page, AllocError>
    requires few { figures.counts.samples ≤ MAX_SAMPLES }
    requires figures { (w : List ℤ) × AreFigures table_grid table_gain figures w }
    ensures { (w : List ℤ) → AreFigures table_grid table_gain figures w →
        IfOk result (λ page. page.bytes ≡ text_of_samples w) }
{
    let mut page = Page::new(alloc, CLASSES)?;
    let counts = figures.counts;
    let half_units = figures.finish();
    table_text(
        &mut page,
        &grid_of_table(),
        [counts.samples, counts.used, counts.missing, counts.refused],
        half_units.as_slice(),
    );
    Ok(page)
}
