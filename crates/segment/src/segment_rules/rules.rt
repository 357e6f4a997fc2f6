ghost use Rattle.std.specs.Prelude.{◌≡◌, ◌↔◌, IsNone, IsTrue};
ghost use Rattle.four_point.specs.Residue.{IsResidue};
ghost use Rattle.segment.specs.segment_rules.Parts.{parts_value};
ghost use Rattle.segment.specs.segment_rules.Rules.{AreSegmentParts};
ghost use Rattle.segment.specs.segment_rules.Tests.{first_broken, first_wrong_end, is_residue};

use crate::segment_rules::ends::{has_ends, has_length};
use crate::segment_rules::order::first_wrong_entry;
use crate::segment_rules::parts::Parts;
use crate::segment_rules::rule::BrokenRule;
use crate::segment_rules::sums::first_wrong_sum;
use calibration::Grid;

// The first residue rule that the parts break, where `has_residue` tells of the first of them.
#[tactic(auto, unfolding(crate::specs::segment_rules::Tests::first_wrong_end))]
fn first_wrong_end(grid: &Grid, parts: &Parts, has_residue: bool) -> Option<BrokenRule>
    requires { has_residue ≡ is_residue grid.now.classes parts.now.residue }
    ensures { result ≡ first_wrong_end grid.now (parts_value parts.now) }
{
    let residue = parts.residue.as_slice();
    if !has_residue {
        return Some(BrokenRule::Residue { rule: 1 });
    }
    if !has_length(parts.ends.points, residue.len()) {
        return Some(BrokenRule::Residue { rule: 2 });
    }
    if !has_ends(grid.classes(), &parts.ends, residue) {
        return Some(BrokenRule::Residue { rule: 3 });
    }
    None
}

// The first of all.
#[tactic(auto, unfolding(crate::specs::segment_rules::Tests::first_broken))]
fn first_wrong(grid: &Grid, parts: &Parts, has_residue: bool) -> Option<BrokenRule>
    requires { IsTrue has_residue ↔ IsResidue grid.now.classes parts.now.residue }
    ensures { result ≡ first_broken grid.now (parts_value parts.now) }
{
    if let Some(rule) = first_wrong_entry(grid, parts) {
        return Some(rule);
    }
    if let Some(rule) = first_wrong_sum(parts) {
        return Some(rule);
    }
    first_wrong_end(grid, parts, has_residue)
}

/// The first rule that the parts break over a grid. `has_residue` tells whether the residue is one,
/// as `four_point::Reducer::load` does when it takes it.
pub fn first_broken(grid: &Grid, parts: &Parts, has_residue: bool) -> Option<BrokenRule>
    requires { IsTrue has_residue ↔ IsResidue grid.now.classes parts.now.residue }
    ensures rule { result ≡ first_broken grid.now (parts_value parts.now) }
    ensures segment { IsNone result ↔ AreSegmentParts grid.now (parts_value parts.now) }
{
    first_wrong(grid, parts, has_residue)
}
