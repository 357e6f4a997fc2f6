ghost use Rattle.std.specs.Prelude.{◌≡◌, ◌≤◌, ℕ, List, length, map, Err, IfOk, IfErr, OnOk, OnErr};
ghost use Rattle.outside.specs.Fault.{CountRose};
ghost use Rattle.calibration.specs.declared.limits.TheConstants.{MAX_GAUGES};
ghost use Rattle.store_bytes.specs.declared.segment_bytes.layout.Layout.{Layout as LayoutIs};
ghost use Rattle.segment.specs.segment_rules.Parts.{PartsValue};
ghost use Rattle.segment.specs.Parts.{parts_of};
ghost use Rattle.segment.specs.Segment.{SegmentValue};
ghost use Rattle.store_bytes.specs.store_head.Head.{HeadValue, see_head, start_of};
ghost use Rattle.store_bytes.specs.store_head.HeadFaults.{layout_in};
ghost use Rattle.segment_store.specs.Image.{Reads, nothing_held};
ghost use Rattle.segment_store.specs.Opening.{Resumes, IsUnharmed};
ghost use Rattle.segment_store.specs.Quiet.{StaysQuiet};
ghost use Rattle.segment_store.specs.Reading.{HasPassed};
ghost use Rattle.segment_store.specs.Visiting.{HasVisited};
ghost use Rattle.segment_store.specs.declared.fault.ResumeFault.TheVariants.{DiskFault};

use crate::fault::ResumeFault;
use crate::opening::walk_store;
use calibration::Setup;
use outside::station::Station;
use segment::Segment;
use std::alloc::{AllocError, Global};
use store_bytes::store_head::StoreHead;

/// Whoever is handed the segment of each body of a store, in the file's order.
pub trait Visitor {
    /// One step: its state before, the segment that it is handed, its state after.
    ghost step: { Self → SegmentValue → Self → Type 0 };

    /// Takes the segment of the next body. After want of memory its state is what it was.
    fn body(&mut self, alloc: Global, seg: &Segment) -> Result<(), AllocError>
        ensures step { OnOk result (step self.old seg.now self.new) }
        ensures unchanged { OnErr result (self.new ≡ self.old) };
}

/// Hands the segment of each body of a store to a visitor, in the file's order, and tells the
/// store's head. It begins with a sync, and writes and tells nothing. The setup has at most 32
/// gauges.
pub fn each_body<K: Station, V: Visitor>(
    alloc: Global,
    station: &mut K,
    setup: &Setup,
    visitor: &mut V,
) -> Result<StoreHead, ResumeFault>
    requires few { length setup.now.gains ≤ MAX_GAUGES }
    // With Ok the visitor took one step for each body that a read gives.
    ensures visited { IfOk result (λ h. (layout : LayoutIs) × (segments : List SegmentValue) ×
        (last : List ℕ) × HasVisited V.step visitor.old visitor.new setup.now
        (nothing_held setup.now) segments last × (K.tells →
        Reads (see_head layout h) (map parts_of segments) last (K.seen station.old))) }
    // As whatever head and bodies a read at entry reads, these are the bodies.
    ensures reads { K.tells → (head : HeadValue) (bodies : List PartsValue) (ends : List ℕ) →
        head.setup ≡ setup.now → Reads head bodies ends (K.seen station.old) →
        IfOk result (λ h. (see_head head.layout h ≡ head) × (segments : List SegmentValue) ×
        (map parts_of segments ≡ bodies) × HasVisited V.step visitor.old visitor.new setup.now
        (nothing_held setup.now) segments ends) }
    // After a refusal it took one step for each of the first bodies.
    ensures begun { IfErr result (λ _. (segments : List SegmentValue) × (last : List ℕ) ×
        (at : ℕ) × HasVisited V.step visitor.old visitor.new setup.now
        (nothing_held setup.now) segments last × (K.tells →
        HasPassed (layout_in (K.seen station.old)) setup.now (K.seen station.old)
        (start_of setup.now) (nothing_held setup.now) at last (map parts_of segments))) }
    // Which refusal it is, in the order of the file.
    ensures refuses { K.tells → IfErr result (λ fault.
        Resumes {X = ℕ × List ℕ} setup.now (K.seen station.old) (λ x. x) (Err fault)) }
    ensures unharmed { K.tells → (head : HeadValue) (bodies : List PartsValue)
        (ends : List ℕ) → head.setup ≡ setup.now →
        Reads head bodies ends (K.seen station.old) → IsUnharmed result }
    ensures setup { IfOk result (λ h. h.setup ≡ setup.now) }
    ensures heads { IfOk result (λ h. length h.heads ≡ length setup.now.gains) }
    ensures quiet { K.tells → StaysQuiet ⟦<K as Station>⟧ station.old station.new }
    ensures cause { result ≡ Err DiskFault →
        CountRose (K.faults station.old) (K.faults station.new) }
    ensures later { K.faults station.old ≤ K.faults station.new }
{
    match walk_store(alloc, station, setup, visitor) {
        Ok(found) => Ok(found.head),
        Err(fault) => Err(fault),
    }
}
