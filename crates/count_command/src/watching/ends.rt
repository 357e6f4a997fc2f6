ghost use Rattle.std.specs.Prelude.{◌≡◌, IfOk, length, slice_index};
ghost use Rattle.segment_store.specs.Held.{ends_of};

use crate::watching::OutOfMemory;
use calibration::MAX_GAUGES;
use live_view::View;
use segment_store::Store;
use std::alloc::Global;
use std::marker::Model;

/// The most ends that are kept of a gauge: those of looks beside the puts, and that of the last.
pub const MOST_ENDS: usize = 64;

/// The most that are kept of looks beside the puts.
pub const MOST_ENDS_BESIDE: usize = MOST_ENDS - 1;

/// The ends of gauges that a watcher saw, in the order of its looks, and where each gauge ended
/// before. Its value is the latter, by gauge.
#[derive(Drop)]
pub struct SeenEnds {
    starts: Vec<u64>,
    ends: Vec<Vec<u64>>,
}

impl Model for SeenEnds {
    ghost use Rattle.std.specs.Prelude.{ℕ, List};

    ghost Value = { List ℕ };

    ghost view = { λ s. s.starts.items };
}

// Keeps an end that is above the last, unless there are so many already.
fn keep_end(ends: &mut Vec<u64>, end: u64, most: usize) {
    if ends.len() >= most {
        return;
    }
    if let Some(last) = ends.as_slice().last() {
        if *last >= end {
            return;
        }
    }
    // There is room for it; else it would be left out.
    let _kept = ends.push(end).is_ok();
}

// Keeps those of a view, by gauge.
fn keep_ends(ends: &mut [Vec<u64>], view: &View, most: usize) {
    for gauge in 0..MAX_GAUGES {
        if let Some(ends) = ends.get_mut(usize::from(gauge)) {
            keep_end(ends, view.to(gauge), most);
        }
    }
}

impl SeenEnds {
    /// No end was seen, and each gauge ends where it is held. This takes all memory.
    pub fn new(alloc: Global, gauges: u16, store: &Store) -> Result<SeenEnds, OutOfMemory>
        requires { length store.now.held ≡ gauges }
        ensures { IfOk result (λ s. s ≡ ends_of store.now.held) }
    {
        let mut starts = Vec::with_capacity(alloc, usize::from(gauges))?;
        let mut ends = Vec::with_capacity(alloc, usize::from(gauges))?;
        for gauge in 0..gauges {
            starts.push_reserved(store.held(gauge).name().to);
            ends.push_reserved(Vec::with_capacity(alloc, MOST_ENDS)?);
        }
        Ok(SeenEnds { starts, ends })
    }

    /// Keeps where the view ends by gauge, of each at most so many different ends. It takes no
    /// memory.
    pub fn keep(&mut self, view: &View, most: usize)
        ensures { self.new ≡ self.old }
    {
        keep_ends(self.ends.as_mut_slice(), view, most);
    }

    /// Where a gauge ended before.
    pub fn start(&self, gauge: usize) -> u64
        ensures { result ≡ slice_index self.now gauge }
    {
        match self.starts.get(gauge) {
            Some(start) => *start,
            None => 0,
        }
    }

    /// The ends of a gauge that were kept.
    pub fn of(&self, gauge: usize) -> &[u64] {
        match self.ends.get(gauge) {
            Some(ends) => ends.as_slice(),
            None => &[],
        }
    }
}
