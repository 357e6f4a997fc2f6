ghost use Rattle.std.specs.Prelude.{◌≡◌, ◌<◌, ◌≤◌, ◌⊎◌, ◌++◌, [], ◌∷◌, ℕ, List, length, slice_index, slice_index_or, true, false, IfOk, OnOk, OnErr, Err};
ghost use Rattle.outside.specs.Fault.{CountRose};
ghost use Rattle.segment.specs.segment_rules.Parts.{PartsValue};
ghost use Rattle.segment.specs.Parts.{parts_of};
ghost use Rattle.segment.specs.Segment.{SegmentValue};
ghost use Rattle.store_bytes.specs.store_head.Head.{HeadValue, see_head};
ghost use Rattle.segment_store.specs.Held.{ends_of};
ghost use Rattle.segment_store.specs.Image.{Reads, ends_after, IsNext};
ghost use Rattle.segment_store.specs.Keeping.{IsKept, see_state};
ghost use Rattle.segment_store.specs.Moments.{StoreValue, IsOn, IsThere, InPut, EachMoment};
ghost use Rattle.segment_store.specs.Opening.{Resumes, IsUnharmed};
ghost use Rattle.segment_store.specs.Putting.{Refuses, LeavesUnwritten};
ghost use Rattle.segment_store.specs.Quiet.{StaysQuiet};
ghost use Rattle.segment_store.specs.declared.fault.PutFault.TheVariants.{DiskFault};
ghost use Rattle.segment_store.specs.declared.fault.ResumeFault.TheVariants as resume;
ghost use Rattle.calibration.specs.declared.limits.TheConstants.{MAX_GAUGES};

use crate::fault::{PutFault, ResumeFault};
use crate::joining::resume;
use crate::putting::State;
use calibration::Setup;
use outside::station::Station;
use segment::Segment;
use std::alloc::Global;
use std::marker::Model;
use store_bytes::segment_bytes::Layout;
use store_bytes::store_head::StoreHead;

/// A store that was resumed.
#[derive(Drop)]
pub struct Store {
    state: State,
}

impl Model for Store {
    ghost use Rattle.segment_store.specs.Keeping.{IsKept, see_state};
    ghost use Rattle.segment_store.specs.Moments.{StoreValue};

    ghost Value = { StoreValue };

    ghost view = { λ s. see_state s.state };

    ghost invariant = { λ s. IsKept s.state };
}

impl Store {
    /// Resumes the store of a setup of at most 32 gauges. It begins with a sync, and writes and
    /// tells nothing.
    pub fn resume<K: Station>(
        alloc: Global,
        station: &mut K,
        setup: &Setup,
    ) -> Result<Store, ResumeFault>
        requires few { length setup.now.gains ≤ MAX_GAUGES }
        // With Ok the store is on its station, with the bodies joined.
        ensures on { K.tells → IfOk result (λ s.
            IsThere s (K.seen station.new) (K.leaves station.new)) }
        // Which refusal it is, in the order of the file.
        ensures answer { K.tells → Resumes setup.now (K.seen station.old)
            (λ (s : StoreValue). (s.place, ends_of s.held)) result }
        // As whatever head and bodies a read at entry reads, it is on its station with these, and
        // none of the refusals of an image comes.
        ensures reads { K.tells → (head : HeadValue) (bodies : List PartsValue)
            (ends : List ℕ) → head.setup ≡ setup.now →
            Reads head bodies ends (K.seen station.old) →
            IfOk result (λ s. (s.head ≡ head) × (ends_of s.held ≡ ends)
            × IsOn s bodies (K.seen station.new) (K.leaves station.new)) }
        ensures unharmed { K.tells → (head : HeadValue) (bodies : List PartsValue)
            (ends : List ℕ) → head.setup ≡ setup.now →
            Reads head bodies ends (K.seen station.old) → IsUnharmed result }
        ensures setup { IfOk result (λ s. s.head.setup ≡ setup.now) }
        ensures gauges { IfOk result (λ s. length s.held ≡ length setup.now.gains) }
        ensures heads { IfOk result (λ s. length s.head.heads ≡ length setup.now.gains) }
        ensures open { IfOk result (λ s. s.shut ≡ false) }
        ensures quiet { K.tells → StaysQuiet ⟦<K as Station>⟧ station.old station.new }
        ensures cause { result ≡ Err resume.DiskFault →
            CountRose (K.faults station.old) (K.faults station.new) }
        ensures later { K.faults station.old ≤ K.faults station.new }
    {
        match resume(alloc, station, setup) {
            Ok(state) => Ok(Store { state }),
            Err(fault) => Err(fault),
        }
    }

    /// Stores a segment over the store's grid, which is not empty and of a gauge of the store. It
    /// takes no memory: one write behind the closed gate, a sync, the open gate, a sync. After
    /// `DiskFault` the store is shut; after any refusal what is held stays.
    pub fn put<K: Station>(&mut self, station: &mut K, seg: &Segment) -> Result<(), PutFault>
        requires grid { seg.now.grid ≡ self.old.head.setup.grid }
        requires gauge { seg.now.gauge < length self.old.head.setup.gains }
        requires some { seg.now.from < seg.now.to }
        requires on { K.tells → self.old.shut ≡ false →
            IsThere self.old (K.seen station.old) (K.leaves station.old) }
        // With Ok the store is on its station with one body more.
        ensures stored { K.tells → (bodies : List PartsValue) → self.old.shut ≡ false →
            IsOn self.old bodies (K.seen station.old) (K.leaves station.old) →
            OnOk result (IsNext self.old.head.setup (ends_of self.old.held) (parts_of seg.now)
            × IsOn self.new (bodies ++ parts_of seg.now ∷ [])
            (K.seen station.new) (K.leaves station.new)) }
        // Every moment of it reads as the bodies from before, or with the new one.
        ensures any_moment { K.tells → (bodies : List PartsValue) → self.old.shut ≡ false →
            IsOn self.old bodies (K.seen station.old) (K.leaves station.old) →
            EachMoment ⟦<K as Station>⟧ station.old station.new
            (InPut (K.told station.old) self.old.head bodies
            (ends_of self.old.held) (parts_of seg.now)) }
        ensures told { K.tells → K.told station.new ≡ K.told station.old }
        // When it refuses.
        ensures refuses { Refuses self.old.shut
            (slice_index (ends_of self.old.held) seg.now.gauge) seg.now.from result }
        ensures unwritten { K.tells → LeavesUnwritten result (K.seen station.old)
            (K.seen station.new) (K.leaves station.old) (K.leaves station.new) }
        ensures cause { result ≡ Err DiskFault →
            CountRose (K.faults station.old) (K.faults station.new) × (self.new.shut ≡ true) }
        ensures shut { (result ≡ Err DiskFault) ⊎ (self.new.shut ≡ self.old.shut) }
        // What is held.
        ensures held { OnOk result (ends_of self.new.held ≡
            ends_after (ends_of self.old.held) (parts_of seg.now)) }
        ensures unchanged { OnErr result ((self.new.held ≡ self.old.held)
            × (self.new.count ≡ self.old.count) × (self.new.place ≡ self.old.place)) }
        ensures gauges { length self.new.held ≡ length self.old.held }
        ensures head { self.new.head ≡ self.old.head }
        ensures later { K.faults station.old ≤ K.faults station.new }
    {
        self.state.put(station, seg)
    }

    // Its parts.
    pub(crate) fn state(&self) -> &State
        ensures view { see_state result.now ≡ self.now }
        ensures kept { IsKept result.now }
    {
        &self.state
    }

    /// What it is for.
    pub fn head(&self) -> &StoreHead
        ensures { see_head self.now.head.layout result.now ≡ self.now.head }
    {
        &self.state.head
    }

    /// The layout of its bodies, by its version.
    pub fn layout(&self) -> Layout
        ensures { result ≡ self.now.head.layout }
    {
        self.state.layout
    }

    /// The held segment of a gauge.
    pub fn held(&self, gauge: u16) -> &Segment
        requires { gauge < length self.now.held }
        ensures held { (d : SegmentValue) → result.now ≡ slice_index_or self.now.held gauge d }
        ensures gauge { result.now.gauge ≡ gauge }
        ensures grid { result.now.grid ≡ self.now.head.setup.grid }
        ensures start { result.now.from ≡ 0 }
        ensures end { result.now.to ≡ slice_index (ends_of self.now.held) gauge }
    {
        self.state.held.get(gauge)
    }

    /// The held segment of each gauge, in order.
    pub fn segments(&self) -> &[Segment]
        ensures segments { result.now ≡ self.now.held }
        ensures grids { (g : ℕ) (d : SegmentValue) → g < length self.now.held →
            (slice_index_or self.now.held g d).grid ≡ self.now.head.setup.grid }
    {
        self.state.held.as_slice()
    }

    /// How many bodies it has.
    pub fn count(&self) -> u64
        ensures { result ≡ self.now.count }
    {
        self.state.count
    }

    /// Whether a put failed. Only resuming opens the store again.
    pub fn is_shut(&self) -> bool
        ensures { result ≡ self.now.shut }
    {
        self.state.shut
    }
}
