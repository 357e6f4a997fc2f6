ghost use Rattle.std.specs.Prelude.{◌≡◌, ◌≤◌, ◌<◌, ℤ, List, IfOk, Err, drop};
ghost use Rattle.outside.specs.Fault.{CountRose};
ghost use Rattle.recording.specs.Samples.{samples};
ghost use Rattle.file_commands.specs.file_tasks.FileState.{state_of};
ghost use Rattle.file_commands.specs.file_tasks.Answer.{MayGive};
ghost use Rattle.monitor.specs.Printed.{table_grid, table_gain};
ghost use Rattle.calibration.specs.declared.limits.TheConstants.{MAX_SAMPLES};
ghost use Rattle.monitor.specs.Figures.{AreFigures};
ghost use Rattle.file_commands.specs.declared.file_tasks.refusal.Refusal.TheVariants.{ReadFault};
ghost use Rattle.recording.specs.declared.head.TheConstants.{HEAD_LENGTH};

use crate::counting::no_samples;
use crate::grid::table_classifier;
use calibration::MAX_SAMPLES;
use file_commands::file_tasks::Refusal;
use outside::Source;
use recording::{FillEnd, fill, read_head};
use recount::{Piece, RunningCount};
use std::alloc::Global;
use turning_points::three_point::HalfUnits;

/// Reads a recording to its end, piece by piece, and counts its samples in the classes of `table`.
pub fn read_recording<S: Source>(
    alloc: Global,
    src: &mut S,
) -> Result<RunningCount<HalfUnits>, Refusal>
    // The figures are those of some samples, and where the source tells, of the file's.
    ensures figures { IfOk result (λ figures. (w : List ℤ) ×
        AreFigures table_grid table_gain figures w ×
        (S.tells → w ≡ samples (drop HEAD_LENGTH (S.left src.old)))) }
    ensures few { IfOk result (λ figures. figures.counts.samples ≤ MAX_SAMPLES) }
    ensures answer { S.tells → MayGive 0 result (state_of (S.left src.old)) }
    ensures cause { result ≡ Err ReadFault → CountRose (S.faults src.old) (S.faults src.new) }
    ensures later { S.faults src.old ≤ S.faults src.new }
{
    read_head(src)?;
    let classifier = table_classifier();
    let mut figures = no_samples(alloc)?;
    let mut piece = Piece::new(alloc)?;
    let raws = piece.raws.as_mut_slice();
    let levels = piece.levels.as_mut_slice();
    for _ in 0..u64::MAX {
        let filled = fill(src, raws);
        figures.take(&classifier, &raws[..filled.n], levels);
        if figures.counts.samples > MAX_SAMPLES {
            return Err(Refusal::TooLong);
        }
        match filled.end {
            FillEnd::More => {}
            FillEnd::Ended => return Ok(figures),
            FillEnd::Torn(bytes) => return Err(Refusal::Torn(bytes)),
            FillEnd::Failed => return Err(Refusal::ReadFault),
        }
    }
    unreachable!()
}
