ghost use Rattle.std.specs.Prelude.{◌≡◌, ◌≤◌, IfOk, Ok, OnOk};
ghost use Rattle.calibration.specs.declared.limits.TheConstants.{MAX_SAMPLES};
ghost use Rattle.segment.specs.segment_rules.Parts.{PartsValue, parts_value};
ghost use Rattle.segment.specs.segment_rules.Tests.{first_broken};
ghost use Rattle.segment.specs.Loading.{longest_of};
ghost use Rattle.segment.specs.Parts.{parts_of};
ghost use Rattle.store_bytes.specs.segment_bytes.Fields.{Gives};
ghost use Rattle.store_bytes.specs.segment_bytes.Decoding.{IsBodyOf, fault_of, segment_in, or_fault};
ghost use Rattle.store_bytes.specs.declared.segment_bytes.layout.Layout.TheVariants as layouts;
ghost use Rattle.store_bytes.specs.declared.segment_bytes.layout.TheConstants.{MAX_CLASSES_ONE};

use crate::segment_bytes::fault::BytesFault;
use crate::segment_bytes::layout::Layout;
use crate::segment_bytes::parts_reading::parts_in;
use calibration::Grid;
use segment::segment_rules::{BrokenRule, Parts};
use segment::{LoadFault, Segment};
use std::alloc::Global;

fn segment_of_parts(alloc: Global, grid: &Grid, parts: &Parts) -> Result<Segment, BytesFault>
    ensures grid { IfOk result (λ s. s.grid ≡ grid.now) }
    ensures longest { IfOk result (λ s. s.longest ≡ longest_of parts.now.name) }
    ensures reads { Gives parts_of result
        (or_fault (first_broken grid.now (parts_value parts.now)) (parts_value parts.now)) }
{
    match Segment::load(alloc, grid, parts) {
        Ok(segment) => Ok(segment),
        Err(LoadFault::Order { list, index }) => Err(BytesFault::Order { list, index }),
        Err(LoadFault::Sum { rule }) => Err(BytesFault::Sum { rule }),
        Err(LoadFault::Residue { rule }) => Err(BytesFault::Residue { rule }),
        Err(LoadFault::OutOfMemory) => Err(BytesFault::OutOfMemory),
    }
}

#[tactic(auto, unfolding(crate::specs::segment_bytes::Decoding::segment_in))]
fn segment_in(
    alloc: Global,
    layout: Layout,
    grid: &Grid,
    bytes: &[u8],
) -> Result<Segment, BytesFault>
    ensures grid { IfOk result (λ s. s.grid ≡ grid.now) }
    ensures longest { IfOk result (λ s. s.longest ≡ longest_of (parts_of s).name) }
    ensures reads { Gives parts_of result (segment_in layout grid.now bytes.now) }
{
    let parts = parts_in(alloc, layout, grid, bytes)?;
    segment_of_parts(alloc, grid, &parts)
}

/// The segment whose body in the layout the bytes are, over the grid: exactly for such bytes. It
/// may come to as many samples as it has, and to one at least. Refused are, in this order, a number
/// that does not fit, bytes after the body, entries out of order, and the first other rule that is
/// broken.
pub fn decode(
    alloc: Global,
    layout: Layout,
    grid: &Grid,
    bytes: &[u8],
) -> Result<Segment, BytesFault>
    requires { layout ≡ layouts.One → grid.now.classes ≤ MAX_CLASSES_ONE }
    ensures grid { IfOk result (λ s. s.grid ≡ grid.now) }
    ensures longest { IfOk result (λ s. s.longest ≡ longest_of (parts_of s).name) }
    // What is given has this body.
    ensures found { IfOk result (λ s. IsBodyOf layout grid.now (parts_of s) bytes.now) }
    // A body is taken, unless memory runs out.
    ensures complete { (p : PartsValue) → IsBodyOf layout grid.now p bytes.now →
        Gives parts_of result (Ok p) }
    // Which fault it is.
    ensures exact { Gives parts_of result (segment_in layout grid.now bytes.now) }
{
    let _classes = grid.classes();
    segment_in(alloc, layout, grid, bytes)
}

fn fault_of(rule: BrokenRule) -> BytesFault
    ensures { result ≡ fault_of rule }
{
    match rule {
        BrokenRule::Order { list, index } => BytesFault::Order { list, index },
        BrokenRule::Sum { rule } => BytesFault::Sum { rule },
        BrokenRule::Residue { rule } => BytesFault::Residue { rule },
    }
}

// Makes a segment that of these parts.
fn reload(segment: &mut Segment, parts: &Parts) -> Result<(), BytesFault>
    requires longest { segment.old.longest ≡ MAX_SAMPLES }
    ensures grid { segment.new.grid ≡ segment.old.grid }
    ensures longest { segment.new.longest ≡ segment.old.longest }
    ensures reads { Gives (λ _. parts_of segment.new) result
        (or_fault (first_broken segment.old.grid (parts_value parts.now)) (parts_value parts.now)) }
{
    match segment.reload(parts) {
        Some(rule) => Err(fault_of(rule)),
        None => Ok(()),
    }
}

#[tactic(auto, unfolding(crate::specs::segment_bytes::Decoding::segment_in))]
fn reload_from(
    alloc: Global,
    layout: Layout,
    segment: &mut Segment,
    bytes: &[u8],
) -> Result<(), BytesFault>
    requires longest { segment.old.longest ≡ MAX_SAMPLES }
    ensures grid { segment.new.grid ≡ segment.old.grid }
    ensures longest { segment.new.longest ≡ segment.old.longest }
    ensures reads { Gives (λ _. parts_of segment.new) result
        (segment_in layout segment.old.grid bytes.now) }
{
    let parts = parts_in(alloc, layout, &segment.grid(), bytes)?;
    reload(segment, &parts)
}

/// The same in place of whatever a segment over the grid was of, which takes memory for the entries
/// alone. The segment may come to as many samples as a recording has.
pub fn decode_into(
    alloc: Global,
    layout: Layout,
    segment: &mut Segment,
    bytes: &[u8],
) -> Result<(), BytesFault>
    requires narrow { layout ≡ layouts.One → segment.old.grid.classes ≤ MAX_CLASSES_ONE }
    requires longest { segment.old.longest ≡ MAX_SAMPLES }
    ensures grid { segment.new.grid ≡ segment.old.grid }
    ensures longest { segment.new.longest ≡ segment.old.longest }
    // After an Ok it has this body.
    ensures found { OnOk result
        (IsBodyOf layout segment.old.grid (parts_of segment.new) bytes.now) }
    // A body is taken, unless memory runs out.
    ensures complete { (p : PartsValue) → IsBodyOf layout segment.old.grid p bytes.now →
        Gives (λ _. parts_of segment.new) result (Ok p) }
    // Which fault it is.
    ensures exact { Gives (λ _. parts_of segment.new) result
        (segment_in layout segment.old.grid bytes.now) }
{
    let _rules = segment.grid();
    reload_from(alloc, layout, segment, bytes)
}
