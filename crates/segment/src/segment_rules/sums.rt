ghost use Rattle.std.specs.Prelude.{◌≡◌, ◌<◌, ◌≤◌, ◌^◌, ◌+◌, ◌-◌, ◌*◌, ◌&&◌, ◌==◌, nat_le, nat_lt, length};
ghost use Rattle.std.specs.List.{list_all};
ghost use Rattle.tally.specs.Counts.{total_of};
ghost use Rattle.turning_points.specs.Ends.{end_points};
ghost use Rattle.turning_points.specs.Pairs.{range};
ghost use Rattle.tally.specs.tables.Bins.{count_at, sum_of};
ghost use Rattle.calibration.specs.declared.limits.TheConstants.{MAX_SAMPLES};
ghost use Rattle.segment.specs.segment_rules.Few.{AreFew};
ghost use Rattle.segment.specs.segment_rules.Parts.{parts_value};
ghost use Rattle.segment.specs.segment_rules.Tests.{are_end_ranges_counted, first_wrong_sum};

use crate::segment_rules::name::Name;
use crate::segment_rules::parts::Parts;
use crate::segment_rules::rule::BrokenRule;
use calibration::MAX_SAMPLES;
use tally::{Bin, Cell};
use turning_points::Ends;

fn sum_of_cells(cells: &[Cell]) -> u128
    requires { length cells.now < 2 ^ 32 }
    ensures sum { result ≡ total_of cells.now }
    ensures bound { result ≤ length cells.now * (2 ^ 64 - 1) }
{
    let mut sum = 0u128;
    for cell in cells {
        sum += u128::from(cell.n);
    }
    sum
}

fn sum_of_bins(bins: &[Bin]) -> u128
    requires { length bins.now ≤ 2 ^ 16 }
    ensures sum { result ≡ sum_of bins.now }
    ensures bound { result ≤ length bins.now * (2 ^ 64 - 1) }
{
    let mut sum = 0u128;
    for bin in bins {
        sum += u128::from(bin.n);
    }
    sum
}

fn count_at(key: u16, bins: &[Bin]) -> u64
    ensures { result ≡ count_at key bins.now }
{
    for bin in bins {
        if key == bin.key {
            return bin.n;
        }
    }
    0
}

fn are_below(used: u64, bins: &[Bin]) -> bool
    ensures { result ≡ list_all (λ b. nat_lt b.n used) bins.now }
{
    bins.iter().all(|b| b.n < used)
}

fn has_span(name: Name) -> bool
    ensures { result ≡ (nat_le name.from name.to && nat_le name.to MAX_SAMPLES) }
{
    name.from <= name.to && name.to <= MAX_SAMPLES
}

// Whether each sample of the name is one of the readings.
fn adds_up(name: Name, used: u64, missing: u64, refused: u64) -> bool
    ensures { result ≡ ((name.from + (used + missing + refused)) == name.to) }
{
    let readings = u128::from(used) + u128::from(missing) + u128::from(refused);
    u128::from(name.from) + readings == u128::from(name.to)
}

fn distance(a: u16, b: u16) -> u16
    ensures { result ≡ range a b }
{
    a.abs_diff(b)
}

// Whether the first and the last range are counted, of three points or more as two half units.
fn has_end_ranges(ends: &Ends, ranges: &[Bin]) -> bool
    ensures { result ≡ are_end_ranges_counted (end_points ends.now) ranges.now }
{
    let first = distance(ends.first[0], ends.first[1]);
    let last = distance(ends.last[0], ends.last[1]);
    let counted = count_at(first, ranges);
    ends.points < 2
        || (1 <= counted
            && (1 <= count_at(last, ranges)
                && (ends.points < 3 || (!(first == last) || 2 <= counted))))
}

/// The first sum rule that the parts break.
#[tactic(auto, unfolding(crate::specs::segment_rules::Tests::first_wrong_sum))]
pub(crate) fn first_wrong_sum(parts: &Parts) -> Option<BrokenRule>
    requires { AreFew (parts_value parts.now) }
    ensures { result ≡ first_wrong_sum (parts_value parts.now) }
{
    let points = parts.ends.points;
    if !has_span(parts.name) {
        return Some(BrokenRule::Sum { rule: 1 });
    }
    if !adds_up(parts.name, parts.used, parts.missing, parts.refused) {
        return Some(BrokenRule::Sum { rule: 2 });
    }
    if !(points <= parts.used && (points != 0 || parts.used == 0)) {
        return Some(BrokenRule::Sum { rule: 3 });
    }
    let levels = parts.residue.as_slice().len() as u128;
    if 2 * sum_of_cells(parts.cells.as_slice()) + levels != u128::from(points) {
        return Some(BrokenRule::Sum { rule: 4 });
    }
    if !are_below(parts.used, parts.crossings.as_slice()) {
        return Some(BrokenRule::Sum { rule: 5 });
    }
    let extremes = sum_of_bins(parts.peaks.as_slice()) + sum_of_bins(parts.valleys.as_slice());
    if extremes > u128::from(points.saturating_sub(2)) {
        return Some(BrokenRule::Sum { rule: 6 });
    }
    if sum_of_bins(parts.ranges.as_slice()) != u128::from(points.saturating_sub(1)) {
        return Some(BrokenRule::Sum { rule: 7 });
    }
    if !has_end_ranges(&parts.ends, parts.ranges.as_slice()) {
        return Some(BrokenRule::Sum { rule: 8 });
    }
    None
}
