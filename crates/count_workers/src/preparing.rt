ghost use Rattle.std.specs.Prelude.{◌≡◌, ◌+◌, ◌<◌, ℕ, length, slice_index_or, vec_len, vec_capacity, IfOk};
ghost use Rattle.count_workers.specs.Preparing.{IsFreshReader, NewReaders, ConnectsRing, NewWorker};

use crate::block_workers::{Back, Desk, Item, Reader, Worker};
use crate::gauge_ring::{Feeder, Taker, ring};
use crate::{OutOfMemory, Plan};
use board::flow::BLOCKS_PER_WINDOW;
use calibration::Gain;
use outside::Source;
use recording::lane_ends::End;
use std::alloc::Global;

// A reader without a source and units, with room for a round's units and a ring to each worker.
fn new_reader<C: Source>(alloc: Global, plan: &Plan, gauge: u16) -> Result<Reader<C>, OutOfMemory>
    ensures { IfOk result (IsFreshReader plan.now gauge 0) }
{
    let Ok(gain) = Gain::new(1, 1, 0) else {
        unreachable!()
    };
    let blanks = Vec::with_capacity(alloc, BLOCKS_PER_WINDOW)?;
    let feeders = Vec::with_capacity(alloc, plan.workers as usize)?;
    Ok(Reader {
        src: None,
        desk: Desk {
            gauge,
            gain,
            at: 0,
            block: plan.block,
            grid: plan.grid,
            end: End::Ended,
            blanks,
            feeders,
        },
    })
}

// A reader for each gauge.
pub(crate) fn new_readers<C: Source>(
    alloc: Global,
    plan: &Plan,
) -> Result<Vec<Reader<C>>, OutOfMemory>
    ensures { IfOk result (λ readers.
        (vec_len readers ≡ plan.now.gauges) × NewReaders plan.now 0 readers.items) }
{
    let mut readers = Vec::with_capacity(alloc, plan.gauges as usize)?;
    for gauge in 0..plan.gauges {
        readers.push_reserved(new_reader(alloc, plan, gauge)?);
    }
    Ok(readers)
}

// Makes a ring from the reader, which has places for a round's blocks and a mark.
fn connect<C: Source>(alloc: Global, reader: &mut Reader<C>) -> Result<Taker<Item>, OutOfMemory>
    requires { vec_len reader.old.desk.feeders < vec_capacity reader.old.desk.feeders }
    ensures { IfOk result (λ taker. ConnectsRing reader.old reader.new taker) }
{
    let (feeder, taker) = ring(alloc, BLOCKS_PER_WINDOW + 1)?;
    reader.desk.feeders.push_reserved(feeder);
    Ok(taker)
}

// A worker with a ring from each reader.
pub(crate) fn new_worker<C: Source>(
    alloc: Global,
    number: u8,
    back: Feeder<Back>,
    readers: &mut [Reader<C>],
) -> Result<Worker, OutOfMemory>
    requires { (g : ℕ) (d : _) → g < length readers.old
        → vec_len (slice_index_or readers.old g d).desk.feeders
        < vec_capacity (slice_index_or readers.old g d).desk.feeders }
    ensures { IfOk result (λ worker. NewWorker number back readers.old readers.new worker) }
{
    let mut takers = Vec::with_capacity(alloc, readers.len())?;
    for g in 0..readers.len() {
        takers.push_reserved(connect(alloc, &mut readers[g])?);
    }
    Ok(Worker {
        number,
        takers,
        back,
        gauge: 0,
        block: 0,
        line: None,
    })
}
