ghost use Rattle.std.specs.Prelude.{◌≡◌, ◌<◌, ◌≤◌, ℕ, length, vec_len, slice_index_or};
ghost use Rattle.count_workers.specs.block_workers.Jobs.{SameRead, SameWork, RingAt, AllRings, Fifo, AllFifo};

use crate::block_workers::desk::Desk;
use crate::block_workers::worker::Worker;
use outside::Source;

/// What reads a lane.
#[derive(Drop)]
pub struct Reader<C: Source> {
    /// The lane's source, while a round has it.
    pub src: Option<C>,
    /// All that it has besides.
    pub desk: Desk,
}

// Looks at both ends of one ring.
fn settle_one<C: Source>(worker: &mut Worker, g: usize, reader: &mut Reader<C>, v: usize)
    requires at { (g < vec_len worker.old.takers) × (v < vec_len reader.old.desk.feeders) }
    requires ring { RingAt worker.old reader.old g v }
    ensures worker { SameWork worker.old worker.new }
    ensures reader { SameRead reader.old reader.new }
    ensures fifo { Fifo worker.old reader.old g v }
{
    worker.takers[g].settle(&mut reader.desk.feeders[v]);
}

// Looks at both ends of each of a worker's rings.
fn settle_worker<C: Source>(worker: &mut Worker, v: usize, readers: &mut [Reader<C>])
    requires takers { length readers.old ≤ vec_len worker.old.takers }
    requires feeders { (g : ℕ) (d : _) → g < length readers.old
        → v < vec_len (slice_index_or readers.old g d).desk.feeders }
    requires rings { (g : ℕ) (d : _) → g < length readers.old
        → RingAt worker.old (slice_index_or readers.old g d) g v }
    ensures worker { SameWork worker.old worker.new }
    ensures long { length readers.new ≡ length readers.old }
    ensures readers { (g : ℕ) (d : _)
        → SameRead (slice_index_or readers.old g d) (slice_index_or readers.new g d) }
    ensures fifo { (g : ℕ) (d : _) → g < length readers.old
        → Fifo worker.old (slice_index_or readers.old g d) g v }
{
    for g in 0..readers.len() {
        settle_one(worker, g, &mut readers[g], v);
    }
}

/// Looks at both ends of each ring, when nobody feeds or takes. What was fed is what was taken and
/// what is left.
pub fn settle_all<C: Source>(workers: &mut [Worker], readers: &mut [Reader<C>])
    requires takers { (v : ℕ) (d : _) → v < length workers.old
        → length readers.old ≤ vec_len (slice_index_or workers.old v d).takers }
    requires feeders { (g : ℕ) (d : _) → g < length readers.old
        → length workers.old ≤ vec_len (slice_index_or readers.old g d).desk.feeders }
    requires rings { AllRings workers.old readers.old }
    ensures workers { (v : ℕ) (d : _)
        → SameWork (slice_index_or workers.old v d) (slice_index_or workers.new v d) }
    ensures readers { (g : ℕ) (d : _)
        → SameRead (slice_index_or readers.old g d) (slice_index_or readers.new g d) }
    ensures fifo { AllFifo workers.old readers.old }
{
    for v in 0..workers.len() {
        settle_worker(&mut workers[v], v, readers);
    }
}
