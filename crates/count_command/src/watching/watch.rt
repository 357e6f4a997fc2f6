ghost use Rattle.std.specs.Prelude.{◌≡◌, ◌≤◌, IfOk, length};
ghost use Rattle.calibration.specs.declared.limits.TheConstants.{MAX_GAUGES};
ghost use Rattle.segment_store.specs.Held.{ends_of};
ghost use Rattle.count_command.specs.watching.Watching.{ShowsAtMost};

use crate::held_samples::HeldLine;
use crate::watching::OutOfMemory;
use crate::watching::ends::SeenEnds;
use crate::watching::lookout::Lookout;
use calibration::Grid;
use live_view::{Shower, View, live};
use segment_store::Store;
use std::alloc::{AllocGlobal, Global};
use std::marker::Model;
use std::sync::Wait;

/// What a run needs that is watched: a line, both ends of a live view, and room for the ends that
/// are seen. Its value is what is shown, and where the gauges ended before. It is not `Drop`:
/// rounds end it.
pub struct Watch {
    pub(crate) line: HeldLine,
    pub(crate) shower: Shower,
    pub(crate) lookout: Lookout,
}

impl Model for Watch {
    ghost use Rattle.std.specs.Prelude.{◌≡◌};
    ghost use Rattle.count_command.specs.watching.Watching.{WatchValue};

    ghost Value = { WatchValue };

    ghost view = { λ w. record {
      of = w.shower.of;
      shown = w.shower.view;
      starts = w.lookout.starts;
    } };

    ghost invariant = { λ w. w.lookout.of ≡ w.shower.of };
}

/// What rounds that were watched leave: the line, the ends that were seen, and whether a show was
/// refused.
#[derive(Drop)]
pub struct Watched {
    pub line: HeldLine,
    pub ends: SeenEnds,
    pub refused: bool,
}

// The view of what is held.
fn view_held(alloc: Global, grid: &Grid, gauges: u16, store: &Store) -> Result<View, OutOfMemory>
    requires some { (1 ≤ gauges) × (gauges ≤ MAX_GAUGES) }
    requires gauges { length store.now.held ≡ gauges }
    requires grid { store.now.head.setup.grid ≡ grid.now }
    ensures { IfOk result (λ v. ShowsAtMost v grid.now (ends_of store.now.held)) }
{
    let mut view = View::new(alloc, grid, gauges)?;
    for gauge in 0..gauges {
        view.set(store.held(gauge));
    }
    Ok(view)
}

impl Watch {
    /// Shows what is held. This takes all memory that looks and lines need.
    pub fn new<R: AllocGlobal + Wait>(
        rt: &R,
        grid: &Grid,
        gauges: u16,
        store: &Store,
    ) -> Result<Watch, OutOfMemory>
        requires some { (1 ≤ gauges) × (gauges ≤ MAX_GAUGES) }
        requires gauges { length store.now.held ≡ gauges }
        requires grid { store.now.head.setup.grid ≡ grid.now }
        ensures shown { IfOk result (λ w. ShowsAtMost w.shown grid.now (ends_of store.now.held)) }
        ensures starts { IfOk result (λ w. w.starts ≡ ends_of store.now.held) }
    {
        let line = HeldLine::new(rt.alloc())?;
        let ends = SeenEnds::new(rt.alloc(), gauges, store)?;
        let copy = View::new(rt.alloc(), grid, gauges)?;
        let view = view_held(rt.alloc(), grid, gauges, store)?;
        let (shower, watcher) = live(rt, rt.alloc(), view)?;
        let lookout = Lookout {
            watcher,
            copy,
            ends,
        };
        Ok(Watch {
            line,
            shower,
            lookout,
        })
    }
}
