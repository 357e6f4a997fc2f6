ghost use Rattle.std.specs.Prelude.{◌≡◌, ◌≢◌, true, false, ◌-◌, ◌≤◌, ◌<◌};
ghost use Rattle.outside.specs.Fault.{CountRose};
ghost use Rattle.recording.specs.declared.lane_ends.end.End.TheVariants.{More, ReadFault};
ghost use Rattle.count_workers.specs.block_workers.Jobs.{NotRead};
ghost use Rattle.count_workers.specs.block_workers.Reading.{OneRead, IsReady};
ghost use Rattle.board.specs.declared.flow.TheConstants.{BLOCKS_PER_WINDOW};

use crate::block_workers::Item;
use crate::block_workers::waits::{deal, mark_all};
use crate::gauge_ring::Feeder;
use board::block_pool::Blank;
use calibration::{Gain, Grid, MAX_SAMPLES};
use outside::Source;
use recording::lane_ends::{End, read_samples};
use std::sync::Wait;

/// What a reader has besides its source.
#[derive(Drop)]
pub struct Desk {
    /// The gauge whose lane it reads.
    pub gauge: u16,
    /// What a raw value of the lane means.
    pub gain: Gain,
    /// How many samples of the recording were read.
    pub at: u64,
    /// How many samples a block has.
    pub block: u32,
    /// The classes of its units.
    pub grid: Grid,
    /// How the reading of the lane has ended.
    pub end: End,
    /// The units that wait for samples.
    pub blanks: Vec<Blank>,
    /// A ring to each worker.
    pub feeders: Vec<Feeder<Item>>,
}

// Whether more of a lane may follow.
fn may_go_on(end: End) -> bool
    ensures more { result ≡ true → end ≡ More }
    ensures over { result ≡ false → end ≢ More }
{
    match end {
        End::More => true,
        _ => false,
    }
}

/// Reads one block and deals it. Answers whether it was a whole one, after which more may follow.
pub fn read_block<R: Wait, C: Source>(rt: &R, src: &mut C, desk: &mut Desk, number: u64) -> bool
    requires ready { IsReady desk.old (BLOCKS_PER_WINDOW - number) }
    requires number { number < BLOCKS_PER_WINDOW }
    ensures read { OneRead C.tells (C.left src.old) (C.left src.new)
        desk.old desk.new number result }
    ensures cause { desk.new.end ≡ ReadFault → CountRose (C.faults src.old) (C.faults src.new) }
    ensures later { C.faults src.old ≤ C.faults src.new }
    ensures number { C.number src.new ≡ C.number src.old }
{
    let Some(mut unit) = desk.blanks.pop() else {
        unreachable!()
    };
    let given = read_samples(src, unit.buffer(), MAX_SAMPLES - desk.at);
    desk.end = given.end;
    if given.n == 0 {
        desk.blanks.push_reserved(unit);
        return false;
    }
    let filled = unit.filled(desk.gauge, desk.at, given.n, desk.gain);
    let worker = number as usize % desk.feeders.len();
    deal(rt, desk.feeders.as_mut_slice(), worker, Item::Block(filled));
    desk.at += given.n as u64;
    may_go_on(given.end)
}

/// Ends the round of each ring of a lane.
pub fn mark_lane<R: Wait>(rt: &R, desk: &mut Desk)
    ensures { NotRead desk.old desk.new }
{
    mark_all(rt, desk.feeders.as_mut_slice());
}
