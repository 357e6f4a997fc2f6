ghost use Rattle.std.specs.Prelude.{◌≡◌, ◌↔◌, ◌≤◌, [], ℕ, List, IsTrue, false, length, replicate, IfOk, Err};
ghost use Rattle.outside.specs.Fault.{CountRose};
ghost use Rattle.calibration.specs.declared.limits.TheConstants.{MAX_GAUGES};
ghost use Rattle.segment.specs.segment_rules.Parts.{PartsValue};
ghost use Rattle.store_bytes.specs.store_head.Head.{HeadValue};
ghost use Rattle.segment_store.specs.Held.{AreHeld, ends_of};
ghost use Rattle.segment_store.specs.Image.{Reads};
ghost use Rattle.segment_store.specs.Joiner.{IsNextOf};
ghost use Rattle.segment_store.specs.Keeping.{IsKept, see_state};
ghost use Rattle.segment_store.specs.Moments.{IsOn};
ghost use Rattle.segment_store.specs.Opening.{Resumes, IsUnharmed};
ghost use Rattle.segment_store.specs.Quiet.{StaysQuiet};
ghost use Rattle.segment_store.specs.declared.fault.ResumeFault.TheVariants.{DiskFault};
ghost use Rattle.segment_store.specs.declared.putting.State.{State as StateIs};

use crate::fault::ResumeFault;
use crate::held::Held;
use crate::opening::walk_store;
use crate::putting::State;
use crate::visiting::Visitor;
use calibration::{Grid, Setup};
use outside::station::Station;
use segment::Segment;
use std::alloc::{AllocError, Global};
use std::marker::Model;

// Joins the bodies of each gauge to its held segment.
#[derive(Drop)]
pub(crate) struct Joiner {
    grid: Grid,
    held: Held,
}

impl Model for Joiner {
    ghost use Rattle.std.specs.Prelude.{List};
    ghost use Rattle.segment.specs.segment_rules.Parts.{PartsValue};
    ghost use Rattle.segment_store.specs.Held.{AreHeld};
    ghost use Rattle.segment_store.specs.Joiner.{JoinerValue};

    ghost Value = { JoinerValue };

    ghost view = { λ j. record { grid = j.grid; held = j.held } };

    ghost invariant = { λ j. (bodies : List PartsValue) × AreHeld j.grid bodies j.held };
}

impl Joiner {
    // Of so many gauges, and no samples.
    pub(crate) fn new(alloc: Global, grid: &Grid, gauges: u16) -> Result<Joiner, AllocError>
        ensures grid { IfOk result (λ j. j.grid ≡ grid.now) }
        ensures empty { IfOk result (λ j. AreHeld grid.now [] j.held) }
        ensures ends { IfOk result (λ j. ends_of j.held ≡ replicate gauges 0) }
        ensures gauges { IfOk result (λ j. length j.held ≡ gauges) }
    {
        Ok(Joiner {
            grid: *grid,
            held: Held::new(alloc, grid, gauges)?,
        })
    }

    // What is held.
    pub(crate) fn into_held(self) -> Held
        ensures { result ≡ self.held }
    {
        self.held
    }

    fn is_next(&self, seg: &Segment) -> bool
        ensures { IsTrue result ↔ IsNextOf self.now seg.now }
    {
        let name = seg.name();
        seg.grid() == self.grid
            && usize::from(name.gauge) < self.held.gauges()
            && self.held.end(name.gauge) == name.from
    }
}

impl Visitor for Joiner {
    ghost use Rattle.segment_store.specs.Joiner.{Joins};

    ghost step = { Joins };

    fn body(&mut self, _alloc: Global, seg: &Segment) -> Result<(), AllocError> {
        if self.is_next(seg) {
            self.held.join(seg);
        }
        Ok(())
    }
}

// Resumes a store.
pub(crate) fn resume<K: Station>(
    alloc: Global,
    station: &mut K,
    setup: &Setup,
) -> Result<State, ResumeFault>
    requires few { length setup.now.gains ≤ MAX_GAUGES }
    ensures answer { K.tells → Resumes setup.now (K.seen station.old)
        (λ (s : StateIs). (s.place, ends_of s.held)) result }
    ensures on { K.tells → IfOk result (λ s. (bodies : List PartsValue)
        × IsOn (see_state s) bodies (K.seen station.new) (K.leaves station.new)) }
    ensures unharmed { K.tells → (head : HeadValue) (bodies : List PartsValue) (ends : List ℕ) →
        head.setup ≡ setup.now → Reads head bodies ends (K.seen station.old) →
        IsUnharmed result }
    ensures setup { IfOk result (λ s. s.head.setup ≡ setup.now) }
    ensures heads { IfOk result (λ s. length s.head.heads ≡ length setup.now.gains) }
    ensures kept { IfOk result IsKept }
    ensures open { IfOk result (λ s. s.shut ≡ false) }
    ensures cause { result ≡ Err DiskFault →
        CountRose (K.faults station.old) (K.faults station.new) }
    ensures later { K.faults station.old ≤ K.faults station.new }
    ensures quiet { K.tells → StaysQuiet ⟦<K as Station>⟧ station.old station.new }
{
    let gauges = setup.gains.as_slice().len() as u16;
    let mut joiner = Joiner::new(alloc, &setup.grid, gauges)?;
    match walk_store(alloc, station, setup, &mut joiner) {
        Ok(found) => Ok(State {
            head: found.head,
            layout: found.layout,
            held: joiner.into_held(),
            count: found.count,
            place: found.place,
            buf: found.buf,
            shut: false,
        }),
        Err(fault) => Err(fault),
    }
}
