ghost use Rattle.std.specs.Prelude.{
  ◌≡◌,
  ◌≤◌,
  ◌<◌,
  ◌-◌,
  ◌++◌,
  ℕ,
  ℤ,
  List,
  length,
  slice_index,
  slice_index_or,
  string_bytes,
  IfOk,
  OnOk,
};
ghost use Rattle.std.specs.Fmt.{decimal};
ghost use Rattle.calibration.specs.History.{history};
ghost use Rattle.segment.specs.Segment.{Stands};
ghost use Rattle.report.specs.Lines.{tenths as tenths_of};
ghost use Rattle.demo_command.specs.Made.{demo_grid, demo_gain};
ghost use Rattle.demo_command.specs.Totals.{IsTotal};
ghost use Rattle.demo_command.specs.Summary as spec;
ghost use Rattle.demo_command.specs.declared.made.TheConstants.{GAUGES};
ghost use Rattle.calibration.specs.declared.grid.TheConstants.{MAX_CLASSES};

use crate::made::CLASSES;
use itoa::Buffer;
use segment::Segment;
use std::alloc::{AllocError, Global};

// What stands at the places from 1 on, together.
fn sum_of(halves: &[u64]) -> u128
    requires some { 1 ≤ length halves.now }
    requires few { length halves.now ≤ MAX_CLASSES }
    ensures { result ≡ spec.all_halves (λ k. slice_index halves.now k) (length halves.now - 1) }
{
    let mut sum = 0u128;
    for k in 1..halves.len() {
        sum += u128::from(halves[k]);
    }
    sum
}

// The half units of all ranges.
fn all_halves(total: &Segment) -> u128
    requires grid { total.now.grid ≡ demo_grid }
    ensures { (w : List ℤ) → Stands total.now demo_gain w →
        result ≡ spec.table_halves (history demo_grid demo_gain w) }
{
    let mut halves = [0; CLASSES as usize];
    total.half_units(&mut halves);
    sum_of(&halves)
}

fn tenths(halves: u128) -> &'static str
    ensures { result.now ≡ tenths_of halves }
{
    if halves % 2 == 0 { ".0" } else { ".5" }
}

fn push_number(text: &mut String, n: u128) -> Result<(), AllocError>
    ensures { OnOk result (string_bytes text.new ≡ string_bytes text.old ++ decimal n) }
{
    let mut buffer = Buffer::new();
    text.push_str(buffer.format(n))
}

// Writes the line of a gauge with so many half units, of whose levels so many are left.
fn push_line(text: &mut String, gauge: usize, halves: u128, points: usize) -> Result<(), AllocError>
    ensures { OnOk result (string_bytes text.new ≡
        string_bytes text.old ++ spec.gauge_line gauge halves points) }
{
    text.push_str("gauge ")?;
    push_number(text, gauge as u128)?;
    text.push_str(" cycles ")?;
    push_number(text, halves / 2)?;
    text.push_str(tenths(halves))?;
    text.push_str(" residue ")?;
    push_number(text, points as u128)?;
    text.push_str("\n")
}

// Writes the line of a gauge.
fn push_gauge(text: &mut String, gauge: usize, total: &Segment) -> Result<(), AllocError>
    requires grid { total.now.grid ≡ demo_grid }
    ensures { OnOk result ((w : List ℤ) → Stands total.now demo_gain w → string_bytes text.new ≡
        string_bytes text.old ++ spec.gauge_line gauge
        (spec.table_halves (history demo_grid demo_gain w)) (length total.now.reducer.residue)) }
{
    push_line(text, gauge, all_halves(total), total.residue().len())
}

// Writes the first line.
fn push_head(text: &mut String, seed: u64, samples: u64) -> Result<(), AllocError>
    ensures { OnOk result (string_bytes text.new ≡
        string_bytes text.old ++ spec.head_line seed samples) }
{
    text.push_str("demo seed ")?;
    push_number(text, seed as u128)?;
    text.push_str(" samples ")?;
    push_number(text, samples as u128)?;
    text.push_str("\n")
}

/// What is printed of the recordings that were counted to their ends.
pub fn summary_text(
    alloc: Global,
    seed: u64,
    samples: u64,
    totals: &[Segment],
) -> Result<String, AllocError>
    requires long { length totals.now ≡ GAUGES }
    requires totals { (g : ℕ) (d : _) → g < GAUGES →
        IsTotal seed samples g samples (slice_index_or totals.now g d) }
    ensures { IfOk result (λ text. spec.IsSummary seed samples (string_bytes text)) }
{
    let mut text = String::new(alloc);
    push_head(&mut text, seed, samples)?;
    for gauge in 0..totals.len() {
        push_gauge(&mut text, gauge, &totals[gauge])?;
    }
    Ok(text)
}
