ghost use Rattle.std.specs.Prelude.{◌≡◌, ◌≢◌, ◌≤◌, ◌<◌, ℕ, ℤ, List, [], Some, IfOk, OnOk, Err, length, take};
ghost use Rattle.outside.specs.Fault.{CountRose};
ghost use Rattle.recording.specs.Samples.{samples as samples_of};
ghost use Rattle.calibration.specs.declared.limits.TheConstants.{MAX_SAMPLES};
ghost use Rattle.recording.specs.declared.TheConstants.{PIECE};
ghost use Rattle.recount.specs.Counted.{IsRecount, HasCountedPairs};
ghost use Rattle.recount.specs.declared.count.RecountFault.TheVariants.{Fewer, OutOfMemory, ReadFault};

use crate::piece::Piece;
use crate::running::RunningCount;
use calibration::{Classifier, Gain, Grid};
use four_point::residue_join::PairCounter;
use outside::Source;
use recording::{FillEnd, PIECE, fill};
use segment::SampleCounts;
use std::alloc::{AllocError, Global};
use std::error::Error;
use std::fmt;

/// What was found of a recording's samples: how many are of each kind, and the half units of each
/// pair of levels.
#[derive(Debug, Drop)]
pub struct Recount {
    pub counts: SampleCounts,
    pub pairs: PairCounter,
}

/// Why samples were not counted again.
#[derive(Clone, Copy, Debug, PartialEq, Eq)]
pub enum RecountFault {
    /// Input ended before the last of them. So many whole samples are there.
    Fewer { there: u64 },
    /// A read failed.
    ReadFault,
    OutOfMemory,
}

impl From<AllocError> for RecountFault {
    ghost from_gives = { λ _ fault. fault ≡ OutOfMemory };

    fn from(_: AllocError) -> RecountFault {
        RecountFault::OutOfMemory
    }
}

impl fmt::Display for RecountFault {
    ghost use Rattle.recount.specs.FaultText.{recount_fault_text};

    ghost output = { λ fault. Some (recount_fault_text fault) };

    fn fmt<W: fmt::Write>(&self, f: &mut fmt::Formatter<W>) -> fmt::Result {
        match self {
            RecountFault::Fewer { there } => write!(f, "only {there} samples there"),
            RecountFault::ReadFault => f.write_str("a read failed"),
            RecountFault::OutOfMemory => f.write_str("out of memory"),
        }
    }
}

impl Error for RecountFault {}

/// Counts the first `samples` samples that a source gives, in the classes of a grid under a gain,
/// by the run of ASTM E1049-85, 5.4.4. Besides 96 KiB for a piece it takes the memory of a tally
/// with room for each pair of levels, and each sample takes constant time. What the source has left
/// afterwards is left open.
pub fn count_again<S: Source>(
    alloc: Global,
    src: &mut S,
    gain: &Gain,
    grid: &Grid,
    samples: u64,
) -> Result<Recount, RecountFault>
    requires few { samples ≤ MAX_SAMPLES }
    // The figures are those of so many samples, and where the source tells, of its first ones.
    ensures counted { IfOk result (λ found. (w : List ℤ) × (IsRecount grid.now gain.now found w ×
        ((length w ≡ samples) × (S.tells → w ≡ take samples (samples_of (S.left src.old)))))) }
    ensures fewer { S.tells → (there : ℕ) → result ≡ Err (Fewer there) →
        (there ≡ length (samples_of (S.left src.old))) × (there < samples) }
    ensures cause { result ≡ Err ReadFault → CountRose (S.faults src.old) (S.faults src.new) }
    ensures steady { result ≢ Err ReadFault → S.faults src.new ≡ S.faults src.old }
    ensures later { S.faults src.old ≤ S.faults src.new }
{
    let mut piece = Piece::new(alloc)?;
    let classes = grid.classes();
    let pairs = PairCounter::new(alloc, classes)?;
    let mut count = RunningCount::new(alloc, classes, pairs)?;
    let classifier = Classifier::new(gain, grid);
    take_samples(src, &classifier, samples, &mut piece, &mut count)?;
    Ok(Recount {
        counts: count.counts,
        pairs: count.finish(),
    })
}

// Takes so many samples from a source, piece by piece, into a count of none.
fn take_samples<S: Source>(
    src: &mut S,
    classifier: &Classifier,
    samples: u64,
    piece: &mut Piece,
    count: &mut RunningCount<PairCounter>,
) -> Result<(), RecountFault>
    requires few { samples ≤ MAX_SAMPLES }
    requires raws { length piece.old.raws.items ≡ PIECE }
    requires levels { length piece.old.levels.items ≡ PIECE }
    requires none { HasCountedPairs classifier.now.grid classifier.now.gain count.old [] }
    ensures counted { OnOk result ((w : List ℤ) ×
        (HasCountedPairs classifier.now.grid classifier.now.gain count.new w ×
        ((length w ≡ samples) × (S.tells → w ≡ take samples (samples_of (S.left src.old)))))) }
    ensures fewer { S.tells → (there : ℕ) → result ≡ Err (Fewer there) →
        (there ≡ length (samples_of (S.left src.old))) × (there < samples) }
    ensures memory { result ≢ Err OutOfMemory }
    ensures cause { result ≡ Err ReadFault → CountRose (S.faults src.old) (S.faults src.new) }
    ensures steady { result ≢ Err ReadFault → S.faults src.new ≡ S.faults src.old }
    ensures later { S.faults src.old ≤ S.faults src.new }
{
    let raws = piece.raws.as_mut_slice();
    let levels = piece.levels.as_mut_slice();
    while count.counts.samples < samples {
        let wanted = (samples - count.counts.samples).min(PIECE as u64) as usize;
        let filled = fill(src, &mut raws[..wanted]);
        count.take(classifier, &raws[..filled.n], levels);
        match filled.end {
            FillEnd::More => {}
            FillEnd::Failed => return Err(RecountFault::ReadFault),
            FillEnd::Ended | FillEnd::Torn(_) => {
                return Err(RecountFault::Fewer {
                    there: count.counts.samples,
                });
            }
        }
    }
    Ok(())
}
