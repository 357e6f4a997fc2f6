ghost use Rattle.std.specs.Prelude.{◌≡◌, ◌*◌, ◌≤◌};
ghost use Rattle.std.specs.List.{All};
ghost use Rattle.outside.specs.Fault.{CountRose};
ghost use Rattle.recording.specs.declared.lane_ends.end.End.TheVariants.{ReadFault};
ghost use Rattle.count_workers.specs.block_workers.Jobs.{CanRead, ReadJob, AllRead, SameSource, SameSources};
ghost use Rattle.count_workers.specs.block_workers.Reading.{IsReadSoFar, ReadDone, IsReady, BlocksOfRound};
ghost use Rattle.count_workers.specs.running.Going.{CanGoOn, GoesOn};
ghost use Rattle.board.specs.declared.flow.TheConstants.{BLOCKS_PER_WINDOW};

use crate::block_workers::{Desk, Reader, Worker, mark_lane, read_block};
use crate::collector::{Depot, Return};
use crate::running::passing::pass_on;
use board::flow::BLOCKS_PER_WINDOW;
use outside::{Gate, Source};
use recording::lane_ends::End;
use std::sync::Wait;

// Reads the blocks of a round, and deals them. Each is passed on before the next is read.
fn read_blocks<R: Wait, C: Source, G: Gate>(
    rt: &R,
    gate: &G,
    src: &mut C,
    desk: &mut Desk,
    workers: &mut [Worker],
    depot: &mut Depot,
    returns: &mut [Return],
)
    requires ready { IsReady desk.old BLOCKS_PER_WINDOW }
    requires on { CanGoOn workers.old depot.old }
    ensures read { IsReadSoFar C.tells (C.left src.old) (C.left src.new) desk.old desk.new
        (BLOCKS_PER_WINDOW * desk.old.block) (BlocksOfRound desk.old desk.new) }
    ensures cause { desk.new.end ≡ ReadFault → CountRose (C.faults src.old) (C.faults src.new) }
    ensures later { C.faults src.old ≤ C.faults src.new }
    ensures number { C.number src.new ≡ C.number src.old }
    ensures on { GoesOn workers.old workers.new depot.old depot.new returns.old returns.new }
{
    for number in 0..BLOCKS_PER_WINDOW as u64 {
        let more = read_block(rt, src, desk, number);
        pass_on(rt, gate, workers, depot, returns);
        if !more {
            return;
        }
    }
}

// Reads up to 16 blocks of a lane, deals block `b` to the ring of worker `b` mod the number of
// workers, and ends the round of each ring by a mark. Only the last block may be shorter than
// `block`; `end` tells why fewer came. A sample past the limit of a recording is taken, and not
// among the blocks.
fn read_lane<R: Wait, C: Source, G: Gate>(
    rt: &R,
    gate: &G,
    src: &mut C,
    desk: &mut Desk,
    workers: &mut [Worker],
    depot: &mut Depot,
    returns: &mut [Return],
)
    requires ready { IsReady desk.old BLOCKS_PER_WINDOW }
    requires on { CanGoOn workers.old depot.old }
    ensures read { ReadDone C.tells (C.left src.old) (C.left src.new) desk.old desk.new }
    ensures cause { desk.new.end ≡ ReadFault → CountRose (C.faults src.old) (C.faults src.new) }
    ensures later { C.faults src.old ≤ C.faults src.new }
    ensures number { C.number src.new ≡ C.number src.old }
    ensures on { GoesOn workers.old workers.new depot.old depot.new returns.old returns.new }
{
    read_blocks(rt, gate, src, desk, workers, depot, returns);
    mark_lane(rt, desk);
    pass_on(rt, gate, workers, depot, returns);
}

// The round of one reader. A lane that has ended is not read again.
fn run_reader<R: Wait, C: Source, G: Gate>(
    rt: &R,
    gate: &G,
    reader: &mut Reader<C>,
    workers: &mut [Worker],
    depot: &mut Depot,
    returns: &mut [Return],
)
    requires read { CanRead reader.old }
    requires on { CanGoOn workers.old depot.old }
    ensures job { ReadJob C.tells C.left C.faults reader.old reader.new }
    ensures source { SameSource C.number reader.old.src reader.new.src }
    ensures on { GoesOn workers.old workers.new depot.old depot.new returns.old returns.new }
{
    let Some(src) = &mut reader.src else {
        unreachable!()
    };
    if reader.desk.end == End::More {
        read_lane(rt, gate, src, &mut reader.desk, workers, depot, returns);
        return;
    }
    mark_lane(rt, &mut reader.desk);
    pass_on(rt, gate, workers, depot, returns);
}

/// The rounds of all readers, one after another.
pub fn run_readers<R: Wait, C: Source, G: Gate>(
    rt: &R,
    gate: &G,
    readers: &mut [Reader<C>],
    workers: &mut [Worker],
    depot: &mut Depot,
    returns: &mut [Return],
)
    requires read { All CanRead readers.old }
    requires on { CanGoOn workers.old depot.old }
    ensures readers { AllRead C.tells C.left C.faults readers.old readers.new }
    ensures sources { SameSources C.number readers.old readers.new }
    ensures on { GoesOn workers.old workers.new depot.old depot.new returns.old returns.new }
{
    for g in 0..readers.len() {
        run_reader(rt, gate, &mut readers[g], workers, depot, returns);
    }
}
