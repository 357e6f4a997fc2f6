ghost use Rattle.std.specs.Prelude.{◌≡◌, ◌<◌, ◌≤◌, ℕ, All, length, sum, vec_capacity};
ghost use Rattle.calibration.specs.declared.grid.TheConstants.{MAX_CLASSES};
ghost use Rattle.damage.specs.declared.miner.TheConstants.{MAX_HALF_CYCLES};
ghost use Rattle.report.specs.Figures.{Figures, Agree, figures_of};
ghost use Rattle.segment.specs.Segment.{IsSegment};
ghost use Rattle.site_config.specs.Valid.{IsConfig};
ghost use Rattle.report_command.specs.site_report.Damages.{IsDamageOf, AreDamages, AreHalves};
ghost use Rattle.report_command.specs.site_report.Report.{Agrees, AreOver};

use calibration::{Grid, MAX_CLASSES};
use damage::exact_frac::Frac;
use damage::miner::damage;
use damage::sn_curve::Detail;
use segment::Segment;
use site_config::Config;

const PLACES: usize = MAX_CLASSES as usize;

/// Sums the damage of each detail by the segment of its gauge.
pub fn sum_damages(config: &Config, segments: &[Segment], damages: &mut Vec<Frac>)
    requires config { IsConfig config.now }
    requires setup { AreOver config.now.setup.grid segments.now }
    requires gauges { length segments.now ≡ length config.now.gauges }
    requires room { length config.now.details ≤ vec_capacity damages.old }
    ensures damages { (figures : ℕ → Figures) → Agrees config.now segments.now figures →
        AreDamages config.now figures damages.new.items }
    ensures one_each { length damages.new.items ≡ length config.now.details }
    ensures few { All (λ damage. damage.whole ≤ MAX_HALF_CYCLES) damages.new.items }
    ensures room { vec_capacity damages.new ≡ vec_capacity damages.old }
{
    damages.clear();
    for detail in config.details.as_slice() {
        let gauge = usize::from(detail.gauge);
        damages.push_reserved(damage_by(&detail.detail, &segments[gauge]));
    }
}

// The damage of a detail by a segment's half units.
fn damage_by(detail: &Detail, segment: &Segment) -> Frac
    ensures damage { (figures : Figures) → Agree segment.now.grid (figures_of segment.now) figures →
        IsDamageOf segment.now.grid detail.now figures.half_units result }
    ensures few { result.whole ≤ MAX_HALF_CYCLES }
    ensures rules { IsSegment segment.now }
{
    let grid = segment.grid();
    let mut places = [0; PLACES];
    damage_over(
        detail,
        &grid,
        segment,
        &mut places[..usize::from(grid.classes())],
    )
}

// `halves` is room for the half units at each range.
fn damage_over(detail: &Detail, grid: &Grid, segment: &Segment, halves: &mut [u64]) -> Frac
    requires grid { grid.now ≡ segment.now.grid }
    requires places { length halves.old ≡ segment.now.grid.classes }
    ensures damage { (figures : Figures) → Agree segment.now.grid (figures_of segment.now) figures →
        IsDamageOf segment.now.grid detail.now figures.half_units result }
    ensures few { result.whole ≤ MAX_HALF_CYCLES }
{
    put_halves(segment, halves);
    damage(detail, grid, halves)
}

// The half units at each range, which together are no more than the points.
fn put_halves(segment: &Segment, halves: &mut [u64])
    requires places { length halves.old ≡ segment.now.grid.classes }
    ensures halves { AreHalves (figures_of segment.now).half_units
        segment.now.grid.classes halves.new }
    ensures few { sum halves.new ≤ MAX_HALF_CYCLES }
{
    // What a segment keeps: its rules.
    let _grid = segment.grid();
    segment.half_units(halves);
}
