ghost use Rattle.std.specs.Prelude.{◌≡◌, ◌≤◌, length};
ghost use Rattle.segment.specs.segment_rules.Tests.{unless as unless_in};
ghost use Rattle.store_bytes.specs.store_head.HeadFaults.{
  differs as differs_in,
  front_fault as front_fault_in,
  gauge_fault as gauge_fault_in,
  grid_fault as grid_fault_in,
  is_store as is_store_in,
  is_version as is_version_in,
  is_whole as is_whole_in,
  layout_of as layout_in,
  recording_in,
};
ghost use Rattle.calibration.specs.declared.limits.TheConstants.{MAX_GAUGES};

use crate::segment_bytes::{Layout, MAX_CLASSES_ONE};
use crate::store_head::fault::{Field, HeadFault};
use crate::store_head::numbers::{i64_in, u16_in, u32_in};
use crate::store_head::setup::{FRONT_LENGTH, GAUGE_LENGTH};
use calibration::{Gain, Grid, Setup};
use recording::Head;

// Whether the ready byte is open, and the magic bytes stand behind it.
fn is_store(bytes: &[u8; FRONT_LENGTH]) -> bool
    ensures { result ≡ is_store_in bytes.now }
{
    bytes[0] == 1
        && ((bytes[1] == b'S' && bytes[2] == b'G') && (bytes[3] == b'S' && bytes[4] == b'T'))
}

fn unless(holds: bool, fault: HeadFault) -> Option<HeadFault>
    ensures { result ≡ unless_in holds fault }
{
    if holds { None } else { Some(fault) }
}

fn differs(field: Field, kept: i64, found: i64) -> Option<HeadFault>
    ensures { result ≡ differs_in field kept found }
{
    unless(kept == found, HeadFault::Differs { field, kept, found })
}

fn grid_fault(grid: &Grid, bytes: &[u8; FRONT_LENGTH]) -> Option<HeadFault>
    ensures { result ≡ grid_fault_in grid.now bytes.now }
{
    let classes = differs(
        Field::Classes,
        u16_in(bytes, 8) as i64,
        grid.classes() as i64,
    );
    let width = differs(Field::Width, u16_in(bytes, 10) as i64, grid.w2() as i64);
    let low = differs(Field::Low, i64_in(bytes, 12), grid.low_kpa());
    let reference = differs(
        Field::Reference,
        u16_in(bytes, 20) as i64,
        grid.reference() as i64,
    );
    classes.or(width.or(low.or(reference)))
}

fn is_version(version: u8) -> bool
    ensures { result ≡ is_version_in version }
{
    version == 1 || version == 2
}

// Whether the size reaches past the head, and version 1 has at most 128 classes.
fn is_whole(gauges: usize, size: u64, bytes: &[u8; FRONT_LENGTH]) -> bool
    requires few { gauges ≤ MAX_GAUGES }
    ensures { result ≡ is_whole_in gauges size bytes.now }
{
    let classes = u16_in(bytes, 8);
    (FRONT_LENGTH + GAUGE_LENGTH * gauges + 1) as u64 <= size
        && !(bytes[5] == 1 && MAX_CLASSES_ONE < classes)
}

/// The layout of a store's bodies, by its version.
pub fn layout_of(version: u8) -> Layout
    ensures { result ≡ layout_in version }
{
    if version == 1 {
        Layout::One
    } else {
        Layout::Two
    }
}

/// The first fault of the front of the head, in the order of the file, with the size of the store.
pub fn front_fault(setup: &Setup, size: u64, bytes: &[u8; FRONT_LENGTH]) -> Option<HeadFault>
    requires few { length setup.now.gains ≤ MAX_GAUGES }
    ensures { result ≡ front_fault_in setup.now size bytes.now }
{
    let count = setup.gains.as_slice().len();
    let magic = unless(is_store(bytes), HeadFault::NotAStore);
    let version = unless(is_version(bytes[5]), HeadFault::Version(bytes[5]));
    let gauges = differs(Field::Gauges, u16_in(bytes, 6) as i64, count as i64);
    let whole = unless(is_whole(count, size, bytes), HeadFault::NotAStore);
    let grid = grid_fault(&setup.grid, bytes);
    magic.or(version.or(gauges.or(whole.or(grid))))
}

/// The first fault of the bytes of a gauge.
pub fn gauge_fault(gauge: u16, gain: &Gain, bytes: &[u8; GAUGE_LENGTH]) -> Option<HeadFault>
    ensures { result ≡ gauge_fault_in gauge gain.now bytes.now }
{
    let num = differs(Field::Num(gauge), i64_in(bytes, 20), gain.num());
    let den = differs(
        Field::Den(gauge),
        u32_in(bytes, 28) as i64,
        gain.den() as i64,
    );
    let offset = differs(Field::Offset(gauge), i64_in(bytes, 32), gain.offset());
    num.or(den.or(offset))
}

/// The head of the recording that the bytes of a gauge name.
pub fn recording_in(bytes: &[u8; GAUGE_LENGTH]) -> Head
    ensures { result ≡ recording_in bytes.now }
{
    let mut id = [0; 16];
    id.copy_from_slice(&bytes[..16]);
    Head {
        id,
        period_us: u32_in(bytes, 16),
    }
}
