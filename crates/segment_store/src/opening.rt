ghost use Rattle.std.specs.Prelude.{◌≡◌, ◌<◌, ◌≤◌, ◌+◌, ◌++◌, ℕ, List, length, map, take, vec_len, Err, IfOk, IfErr};
ghost use Rattle.outside.specs.Fault.{CountRose};
ghost use Rattle.segment.specs.segment_rules.Parts.{PartsValue};
ghost use Rattle.store_bytes.specs.segment_bytes.Sizes.{max_body as longest_body};
ghost use Rattle.store_bytes.specs.declared.segment_bytes.layout.Layout.TheVariants.{One};
ghost use Rattle.store_bytes.specs.store_head.Head.{HeadValue, IsHead, see_head, head_of, start_of};
ghost use Rattle.store_bytes.specs.store_head.HeadFaults.{head_fault, layout_in};
ghost use Rattle.outside.specs.station.Station.{Only};
ghost use Rattle.segment.specs.Parts.{parts_of};
ghost use Rattle.segment.specs.Segment.{SegmentValue};
ghost use Rattle.segment_store.specs.Image.{Reads, open_bodies, nothing_held};
ghost use Rattle.segment_store.specs.Places.{IsNear};
ghost use Rattle.segment_store.specs.Opening.{
  fault_is,
  IsHeadAnswer,
  WalksAs,
  Resumes,
  IsUnharmed,
};
ghost use Rattle.segment_store.specs.Quiet.{StaysQuiet};
ghost use Rattle.segment_store.specs.Reading.{StartsAt};
ghost use Rattle.segment_store.specs.Visiting.{FoundFrom, HasBegun, HasVisited};
ghost use Rattle.segment_store.specs.declared.fault.ResumeFault.TheVariants.{DiskFault};
ghost use Rattle.segment_store.specs.declared.opening.Walked.{Walked as WalkedIs};
ghost use Rattle.calibration.specs.declared.limits.TheConstants.{MAX_GAUGES};
ghost use Rattle.store_bytes.specs.declared.segment_bytes.layout.TheConstants.{MAX_CLASSES_ONE};
ghost use Rattle.segment_store.specs.declared.filling.TheConstants.{FRAME_LENGTH};

use crate::damage::Stop;
use crate::fault::ResumeFault;
use crate::filling::FRAME_LENGTH;
use crate::heads::{check_front, read_gauges};
use crate::resuming::{Scratch, Stretch, walk};
use crate::visiting::Visitor;
use calibration::{MAX_SAMPLES, Setup};
use outside::Failed;
use outside::station::Station;
use segment::Segment;
use std::alloc::Global;
use store_bytes::segment_bytes::{Layout, max_body};
use store_bytes::store_head::{FRONT_LENGTH, GAUGE_LENGTH, StoreHead};

// What a walk over a store found: its head, where each gauge ends, how many bodies there are and
// the closed gate's place, with a buffer for a body.
#[derive(Drop)]
pub(crate) struct Walked {
    pub(crate) head: StoreHead,
    pub(crate) layout: Layout,
    pub(crate) ends: Vec<u64>,
    pub(crate) count: u64,
    pub(crate) place: u64,
    pub(crate) buf: Vec<u8>,
}

fn fault_of(index: u64, stop: Stop) -> ResumeFault
    ensures fault { result ≡ fault_is index stop }
{
    match stop {
        Stop::Memory => ResumeFault::OutOfMemory,
        Stop::Disk => ResumeFault::DiskFault,
        Stop::Damaged(damage) => ResumeFault::Damaged { index, damage },
    }
}

// Reads the head of a store of this size, and compares it with the setup.
fn check_head<K: Station>(
    alloc: Global,
    station: &mut K,
    setup: &Setup,
    size: u64,
) -> Result<(Layout, StoreHead), ResumeFault>
    requires few { length setup.now.gains ≤ MAX_GAUGES }
    requires size { K.tells → size ≡ length (K.seen station.old) }
    ensures answer { K.tells → IsHeadAnswer result (head_fault setup.now (K.seen station.old)) }
    ensures bytes { K.tells → IfOk result (λ x.
        take (start_of setup.now) (K.seen station.old) ≡ head_of (see_head x.0 x.1)) }
    ensures layout { K.tells → IfOk result (λ x. x.0 ≡ layout_in (K.seen station.old)) }
    ensures is_head { IfOk result (λ x. IsHead (see_head x.0 x.1)) }
    ensures setup { IfOk result (λ x. x.1.setup ≡ setup.now) }
    ensures size { IfOk result (λ x. start_of setup.now < size) }
    ensures cause { result ≡ Err DiskFault →
        CountRose (K.faults station.old) (K.faults station.new) }
    ensures later { K.faults station.old ≤ K.faults station.new }
    ensures quiet { K.tells → StaysQuiet ⟦<K as Station>⟧ station.old station.new }
{
    let _classes = setup.grid.classes();
    let layout = check_front(station, setup, size)?;
    match read_gauges(alloc, station, setup) {
        Ok(head) => Ok((layout, head)),
        Err(fault) => Err(fault),
    }
}

/// Reads the head of a store alone, and no body. It writes and tells nothing, and syncs nothing: it
/// tells what a read gives, whatever a crash would leave. The setup has at most 32 gauges.
pub fn read_head<K: Station>(
    alloc: Global,
    station: &mut K,
    setup: &Setup,
) -> Result<StoreHead, ResumeFault>
    requires few { length setup.now.gains ≤ MAX_GAUGES }
    // With Ok nothing is wrong with the head, else the first thing that is, in the order of the
    // file.
    ensures answer { K.tells → IsHeadAnswer result (head_fault setup.now (K.seen station.old)) }
    // Its bytes stand at the front.
    ensures bytes { K.tells → IfOk result (λ h. take (start_of setup.now) (K.seen station.old) ≡
        head_of (see_head (layout_in (K.seen station.old)) h)) }
    // As whatever head a read at entry reads, it is that.
    ensures reads { K.tells → (head : HeadValue) (bodies : List PartsValue) (ends : List ℕ) →
        head.setup ≡ setup.now → Reads head bodies ends (K.seen station.old) →
        IfOk result (λ h. see_head head.layout h ≡ head) }
    ensures unharmed { K.tells → (head : HeadValue) (bodies : List PartsValue)
        (ends : List ℕ) → head.setup ≡ setup.now →
        Reads head bodies ends (K.seen station.old) → IsUnharmed result }
    ensures setup { IfOk result (λ h. h.setup ≡ setup.now) }
    ensures heads { IfOk result (λ h. length h.heads ≡ length setup.now.gains) }
    ensures quiet { K.tells → StaysQuiet ⟦<K as Station>⟧ station.old station.new }
    ensures cause { result ≡ Err DiskFault →
        CountRose (K.faults station.old) (K.faults station.new) }
    ensures later { K.faults station.old ≤ K.faults station.new }
{
    let size = station.size()?;
    match check_head(alloc, station, setup, size) {
        Ok((_layout, head)) => Ok(head),
        Err(fault) => Err(fault),
    }
}

// Walks over the bodies behind the head.
fn walk_bodies<K: Station, V: Visitor>(
    alloc: Global,
    station: &mut K,
    layout: Layout,
    head: StoreHead,
    size: u64,
    visitor: &mut V,
) -> Result<Walked, ResumeFault>
    requires narrow { layout ≡ One → head.setup.grid.classes ≤ MAX_CLASSES_ONE }
    requires few { length head.setup.gains ≤ MAX_GAUGES }
    requires size { K.tells → size ≡ length (K.seen station.old) }
    requires start { start_of head.setup < size }
    ensures walks { K.tells → WalksAs layout head.setup
        (longest_body layout head.setup.grid.classes) (K.seen station.old)
        (λ (x : WalkedIs). (x.place, x.ends.items)) result }
    ensures reads { K.tells → (bodies : List PartsValue) (last : List ℕ) (gate : ℕ)
        (front rest : List ℕ) → StartsAt layout head.setup
        (longest_body layout head.setup.grid.classes) (K.seen station.old)
        (start_of head.setup) (nothing_held head.setup) bodies last gate front rest →
        IsUnharmed result }
    ensures found { IfOk result (λ x. FoundFrom V.step visitor.old visitor.new K.tells layout
        head.setup (K.seen station.old) (start_of head.setup) (nothing_held head.setup)
        x.ends.items x.place x.count) }
    ensures passed { IfErr result (λ _. HasBegun V.step visitor.old visitor.new K.tells layout
        head.setup (K.seen station.old)) }
    ensures head { IfOk result (λ x. x.head ≡ head) }
    ensures layout { IfOk result (λ x. x.layout ≡ layout) }
    ensures near { IfOk result (λ x. IsNear x.place x.ends.items) }
    ensures count { IfOk result (λ x. x.count ≤ x.place) }
    ensures room { IfOk result (λ x.
        FRAME_LENGTH + longest_body layout head.setup.grid.classes ≤ vec_len x.buf) }
    ensures cause { result ≡ Err DiskFault →
        CountRose (K.faults station.old) (K.faults station.new) }
    ensures later { K.faults station.old ≤ K.faults station.new }
    ensures quiet { K.tells → StaysQuiet ⟦<K as Station>⟧ station.old station.new }
{
    let gauges = head.setup.gains.as_slice().len();
    let limit = max_body(layout, head.setup.grid.classes());
    let mut ends = vec![in alloc; 0u64; gauges]?;
    let buf = vec![in alloc; 0u8; limit + FRAME_LENGTH]?;
    let segment = Segment::new(alloc, &head.setup.grid, 0, 0, MAX_SAMPLES)?;
    let mut scratch = Scratch { buf, segment };
    let stretch = Stretch {
        layout,
        limit,
        start: (FRONT_LENGTH + GAUGE_LENGTH * gauges) as u64,
        size,
    };
    match walk(
        alloc,
        station,
        &head.setup,
        stretch,
        &mut ends,
        visitor,
        &mut scratch,
    ) {
        Ok(ended) => Ok(Walked {
            head,
            layout,
            ends,
            count: ended.count,
            place: ended.place,
            buf: scratch.buf,
        }),
        Err(stopped) => Err(fault_of(stopped.count, stopped.stop)),
    }
}

// Walks over a store, and hands each body's segment to the visitor.
pub(crate) fn walk_store<K: Station, V: Visitor>(
    alloc: Global,
    station: &mut K,
    setup: &Setup,
    visitor: &mut V,
) -> Result<Walked, ResumeFault>
    requires few { length setup.now.gains ≤ MAX_GAUGES }
    ensures answer { K.tells → Resumes setup.now (K.seen station.old)
        (λ (x : WalkedIs). (x.place, x.ends.items)) result }
    ensures visited { IfOk result (λ x. (segments : List SegmentValue) ×
        HasVisited V.step visitor.old visitor.new setup.now (nothing_held setup.now) segments
        x.ends.items × (x.count ≡ length segments) × (K.tells →
        Reads (see_head x.layout x.head) (map parts_of segments) x.ends.items
        (K.seen station.new) × (x.place ≡ length (head_of (see_head x.layout x.head)
        ++ open_bodies x.layout (map parts_of segments))))) }
    ensures begun { IfErr result (λ _. HasBegun V.step visitor.old visitor.new K.tells
        (layout_in (K.seen station.old)) setup.now (K.seen station.old)) }
    ensures durable { K.tells → IfOk result (λ _.
        Only (K.seen station.new) (K.leaves station.new)) }
    ensures unharmed { K.tells → (head : HeadValue) (bodies : List PartsValue) (ends : List ℕ) →
        head.setup ≡ setup.now → Reads head bodies ends (K.seen station.old) →
        IsUnharmed result }
    ensures setup { IfOk result (λ x. x.head.setup ≡ setup.now) }
    ensures head { IfOk result (λ x. IsHead (see_head x.layout x.head)) }
    ensures near { IfOk result (λ x. IsNear x.place x.ends.items) }
    ensures count { IfOk result (λ x. x.count ≤ x.place) }
    ensures room { IfOk result (λ x.
        FRAME_LENGTH + longest_body x.layout setup.now.grid.classes ≤ vec_len x.buf) }
    ensures cause { result ≡ Err DiskFault →
        CountRose (K.faults station.old) (K.faults station.new) }
    ensures later { K.faults station.old ≤ K.faults station.new }
    ensures quiet { K.tells → StaysQuiet ⟦<K as Station>⟧ station.old station.new }
{
    station.sync()?;
    let size = station.size()?;
    match check_head(alloc, station, setup, size) {
        Ok((layout, head)) => walk_bodies(alloc, station, layout, head, size, visitor),
        Err(fault) => Err(fault),
    }
}
