ghost use Rattle.std.specs.Prelude.{◌≡◌, ◌↔◌, ◌≤◌, ◌++◌, IsTrue, length, IfErr, OnOk};
ghost use Rattle.sha2.specs.Sha256.{sha256};
ghost use Rattle.segment.specs.Parts.{parts_of};
ghost use Rattle.store_bytes.specs.segment_bytes.Decoding.{IsBodyOf};
ghost use Rattle.store_bytes.specs.declared.segment_bytes.layout.Layout.TheVariants.{One};
ghost use Rattle.calibration.specs.Grid.{IsGrid};
ghost use Rattle.calibration.specs.declared.limits.TheConstants.{MAX_SAMPLES};
ghost use Rattle.segment_store.specs.Image.{IsNext};
ghost use Rattle.segment_store.specs.Resuming.{Checks, TellsAs, StopsAs, IsNotDisk};
ghost use Rattle.store_bytes.specs.declared.segment_bytes.layout.TheConstants.{MAX_CLASSES_ONE};

use crate::damage::{Damage, Stop};
use calibration::Setup;
use segment::{JoinRefusal, Segment};
use sha2::{Digest, Sha256};
use std::alloc::Global;
use store_bytes::segment_bytes::{BytesFault, Layout, decode_into};

pub(crate) fn digest_of(field: &[u8], body: &[u8]) -> [u8; 32]
    ensures { result ≡ sha256 (field.now ++ body.now) }
{
    let mut hasher = Sha256::new();
    hasher.update(field);
    hasher.update(body);
    hasher.finalize()
}

fn are_same(found: &[u8; 32], kept: &[u8; 32]) -> bool
    ensures { IsTrue result ↔ (found.now ≡ kept.now) }
{
    found.as_slice() == kept.as_slice()
}

fn stop_of(fault: BytesFault) -> Stop
    ensures as_is { StopsAs fault result }
    ensures sound { IsNotDisk result }
{
    match fault {
        BytesFault::OutOfMemory => Stop::Memory,
        _ => Stop::Damaged(Damage::Bytes(fault)),
    }
}

// The digest that is stored with a body, and that of its bytes.
#[derive(Clone, Copy)]
pub(crate) struct Digests {
    pub(crate) kept: [u8; 32],
    pub(crate) found: [u8; 32],
}

// Makes a segment that of these bytes, if they are sound and come next.
pub(crate) fn check(
    alloc: Global,
    layout: Layout,
    setup: &Setup,
    ends: &[u64],
    bytes: &[u8],
    digests: Digests,
    segment: &mut Segment,
) -> Result<(), Stop>
    requires narrow { layout ≡ One → setup.now.grid.classes ≤ MAX_CLASSES_ONE }
    requires gauges { length ends.now ≡ length setup.now.gains }
    requires over { segment.old.grid ≡ setup.now.grid }
    requires longest { segment.old.longest ≡ MAX_SAMPLES }
    ensures checks { TellsAs (λ _. parts_of segment.new)
        (Checks layout setup.now ends.now bytes.now digests.kept digests.found) result }
    ensures body { OnOk result
        (IsBodyOf layout setup.now.grid (parts_of segment.new) bytes.now) }
    ensures next { OnOk result (IsNext setup.now ends.now (parts_of segment.new)) }
    ensures over { segment.new.grid ≡ setup.now.grid }
    ensures longest { segment.new.longest ≡ MAX_SAMPLES }
    ensures grid { IsGrid setup.now.grid }
    ensures no_disk { IfErr result IsNotDisk }
{
    let _classes = setup.grid.classes();
    let Digests { kept, found } = digests;
    if !are_same(&found, &kept) {
        return Err(Stop::Damaged(Damage::Digest { kept, found }));
    }
    match decode_into(alloc, layout, segment, bytes) {
        Ok(()) => {}
        Err(fault) => return Err(stop_of(fault)),
    }
    let name = segment.name();
    let gauge = usize::from(name.gauge);
    if gauge >= ends.len() {
        return Err(Stop::Damaged(Damage::Gauge(name.gauge)));
    }
    if name.from >= name.to {
        return Err(Stop::Damaged(Damage::Empty));
    }
    let to = ends[gauge];
    if name.from != to {
        let from = name.from;
        return Err(Stop::Damaged(Damage::Join(JoinRefusal::NotNext { to, from })));
    }
    Ok(())
}
