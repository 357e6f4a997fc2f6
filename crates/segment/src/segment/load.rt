ghost use Rattle.std.specs.Prelude.{◌≡◌, ◌*◌, ◌-◌, ◌≤◌, [], IfNone, OnSome, length};
ghost use Rattle.calibration.specs.declared.limits.TheConstants.{MAX_SAMPLES};
ghost use Rattle.tally.specs.Counts.{total_of};
ghost use Rattle.tally.specs.Room.{room_for};
ghost use Rattle.tally.specs.declared.cells.TheConstants.{MAX_TOTAL};
ghost use Rattle.segment.specs.segment_rules.Parts.{parts_value};
ghost use Rattle.segment.specs.segment_rules.Rules.{AreCells};
ghost use Rattle.segment.specs.segment_rules.Tests.{first_broken};
ghost use Rattle.segment.specs.Loading.{Loads};
ghost use Rattle.segment.specs.Parts.{parts_of};
ghost use Rattle.segment.specs.Segment.{empty_at};

use super::Segment;
use crate::fault::{LoadFault, fault_of};
use crate::segment_rules::{BrokenRule, Parts, first_broken};
use calibration::{Grid, MAX_SAMPLES};
use std::alloc::Global;
use tally::{Cell, Tally};

// Counts these cells in an empty tally with the room of so many samples.
fn fill_tally(tally: &mut Tally, longest: u64, cells: &[Cell])
    requires empty { tally.old.cells ≡ [] }
    requires room_is { tally.old.room ≡ room_for tally.old.classes longest }
    requires cells { AreCells tally.old.classes cells.now }
    requires total { total_of cells.now ≤ MAX_TOTAL }
    requires room { 2 * length cells.now ≤ longest }
    ensures { tally.new ≡ record {
      classes = tally.old.classes;
      room = room_for tally.old.classes longest;
      cells = cells.now;
    } }
{
    // What holds of every tally only a call of it tells; this costs nothing.
    let _classes = tally.classes();
    for cell in cells {
        tally.add(cell.lo, cell.hi, cell.n);
    }
}

impl Segment {
    /// Makes it the segment over its grid with exactly these parts, whatever it was of, or tells
    /// the first rule that they break; then it is of no samples. It may come to as many samples as
    /// before. Takes no memory, and a step for each cell that it had and for each entry of the
    /// parts.
    pub fn reload(&mut self, parts: &Parts) -> Option<BrokenRule>
        requires longest { parts.now.name.to ≤ MAX_SAMPLES →
            parts.now.name.to - parts.now.name.from ≤ self.old.longest }
        ensures rule { result ≡ first_broken self.old.grid (parts_value parts.now) }
        ensures parts { IfNone result (parts_of self.new ≡ parts_value parts.now) }
        ensures empty { OnSome result (self.new ≡ empty_at self.old.grid 0 0 self.old.longest) }
        ensures grid { self.new.grid ≡ self.old.grid }
        ensures longest { self.new.longest ≡ self.old.longest }
    {
        self.clear(0, 0);
        let has_residue = self.reducer.load(parts.residue.as_slice());
        let broken = first_broken(&self.grid.grid(), parts, has_residue);
        if broken.is_some() {
            self.reducer.clear();
            return broken;
        }
        fill_tally(&mut self.tally, self.longest, parts.cells.as_slice());
        self.crossings.load(&parts.ends, parts.crossings.as_slice());
        self.simple.load(
            &parts.ends,
            parts.peaks.as_slice(),
            parts.valleys.as_slice(),
            parts.ranges.as_slice(),
        );
        self.gauge = parts.name.gauge;
        self.from = parts.name.from;
        self.to = parts.name.to;
        self.used = parts.used;
        self.missing = parts.missing;
        self.refused = parts.refused;
        None
    }

    /// The segment over a grid with exactly these parts, or the first rule that they break. It may
    /// come to as many samples as it has, and to one at least.
    pub fn load(alloc: Global, grid: &Grid, parts: &Parts) -> Result<Segment, LoadFault>
        ensures { Loads grid.now (parts_value parts.now) result }
    {
        let longest = parts.name.to.saturating_sub(parts.name.from).max(1);
        let mut segment = Segment::new(alloc, grid, 0, 0, longest.min(MAX_SAMPLES))?;
        let broken = segment.reload(parts);
        let _rules = segment.grid();
        match broken {
            Some(rule) => Err(fault_of(rule)),
            None => Ok(segment),
        }
    }
}
