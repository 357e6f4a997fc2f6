ghost use Rattle.std.specs.Prelude.{◌≡◌, ◌≤◌, ◌+◌, ◌++◌, length, IfOk, OnOk};
ghost use Rattle.calibration.specs.Gain.{IsGain};
ghost use Rattle.calibration.specs.Grid.{IsGrid};
ghost use Rattle.store_bytes.specs.declared.segment_bytes.layout.Layout.TheVariants.{One};
ghost use Rattle.recording.specs.Head.{IsRecorded};
ghost use Rattle.store_bytes.specs.store_head.Head.{IsHead, empty_store, front as front_bytes, gauge as gauge_bytes, numbers, see_head, start_of, version_of as version_in};
ghost use Rattle.calibration.specs.declared.limits.TheConstants.{MAX_GAUGES};
ghost use Rattle.store_bytes.specs.declared.segment_bytes.layout.TheConstants.{MAX_CLASSES_ONE};
ghost use Rattle.store_bytes.specs.declared.store_head.setup.TheConstants.{GAUGE_LENGTH};

use crate::segment_bytes::Layout;
use crate::store_head::setup::{FRONT_LENGTH, StoreHead};
use calibration::{Gain, Setup};
use recording::Head;
use std::alloc::{AllocError, Global};

fn version_of(layout: Layout) -> u8
    ensures { result ≡ version_in layout }
{
    match layout {
        Layout::One => 1,
        Layout::Two => 2,
    }
}

// The front of the head.
fn front_of(layout: Layout, setup: &Setup) -> [u8; FRONT_LENGTH]
    requires few { length setup.now.gains ≤ MAX_GAUGES }
    ensures bytes { result ≡ front_bytes layout setup.now }
    ensures grid { IsGrid setup.now.grid }
{
    let v = version_of(layout);
    let n = (setup.gains.as_slice().len() as u16).to_be_bytes();
    let c = setup.grid.classes().to_be_bytes();
    let w = setup.grid.w2().to_be_bytes();
    let l = setup.grid.low_kpa().cast_unsigned().to_be_bytes();
    let r = setup.grid.reference().to_be_bytes();
    [
        1, b'S', b'G', b'S', b'T', v, n[0], n[1], c[0], c[1], w[0], w[1], l[0], l[1], l[2], l[3],
        l[4], l[5], l[6], l[7], r[0], r[1],
    ]
}

// The numbers of a gauge.
fn numbers_of(head: &Head, gain: &Gain) -> [u8; 24]
    ensures bytes { result ≡ numbers head.now gain.now }
    ensures gain { IsGain gain.now }
{
    let p = head.period_us.to_be_bytes();
    let n = gain.num().cast_unsigned().to_be_bytes();
    let d = gain.den().to_be_bytes();
    let o = gain.offset().cast_unsigned().to_be_bytes();
    [
        p[0], p[1], p[2], p[3], n[0], n[1], n[2], n[3], n[4], n[5], n[6], n[7], d[0], d[1], d[2],
        d[3], o[0], o[1], o[2], o[3], o[4], o[5], o[6], o[7],
    ]
}

// An id has 16 bytes, and a period four.
fn fit(head: &Head)
    ensures { IsRecorded head.now }
{
    let _period = head.period_us;
}

// Writes the bytes of a gauge behind the bytes.
fn add_gauge(bytes: &mut Vec<u8>, head: &Head, gain: &Gain) -> Result<(), AllocError>
    ensures items { OnOk result (bytes.new.items ≡
        bytes.old.items ++ gauge_bytes head.now gain.now) }
    ensures len { OnOk result (length bytes.new.items ≡ length bytes.old.items + GAUGE_LENGTH) }
    ensures head { OnOk result (IsRecorded head.now) }
    ensures gain { OnOk result (IsGain gain.now) }
{
    fit(head);
    bytes.extend_from_slice(&head.id)?;
    bytes.extend_from_slice(&numbers_of(head, gain))?;
    Ok(())
}

/// The image of a store without bodies: the head with an open ready byte, and a closed gate.
pub fn bytes_of(alloc: Global, layout: Layout, head: &StoreHead) -> Result<Vec<u8>, AllocError>
    requires few { length head.now.setup.gains ≤ MAX_GAUGES }
    requires heads { length head.now.heads ≡ length head.now.setup.gains }
    requires narrow { layout ≡ One → head.now.setup.grid.classes ≤ MAX_CLASSES_ONE }
    ensures bytes { IfOk result (λ b. b.items ≡ empty_store (see_head layout head.now)) }
    ensures head { IfOk result (λ b. IsHead (see_head layout head.now)) }
    ensures len { IfOk result (λ b. length b.items ≡
        start_of head.now.setup + 1) }
{
    let heads = head.heads.as_slice();
    let gains = head.setup.gains.as_slice();
    let mut bytes = Vec::new(alloc);
    bytes.extend_from_slice(&front_of(layout, &head.setup))?;
    for gauge in 0..heads.len() {
        add_gauge(&mut bytes, &heads[gauge], &gains[gauge])?;
    }
    bytes.push(0)?;
    Ok(bytes)
}
