//! Rounds of one gauge or four over samples that are made here: how many were made and how many
//! samples were used, and with the word `time` also the processor time of all, in hundredths of a
//! nanosecond to the sample. The numbers among the words are those of workers, of samples of a
//! block, of gauges, of samples of each gauge, and of rounds at most.
//!
//! Only safety is proved here. What a round does is said by its own contract.

mod counting;
mod lanes;

ghost use Rattle.std.specs.Prelude.{◌≡◌, ◌<◌, ◌≤◌, ℕ, length, slice_index_or};
ghost use Rattle.count_workers.specs.Plans.{IsPlan};
ghost use Rattle.count_workers.specs.lane_loans.Lent.{CanRound};

use calibration::{Gain, Grid};
use count_workers::lane_loans::Lane;
use count_workers::{Plan, Prepared};
use counting::count;
use lanes::lane;
use outside::SteadySource;
use std::rt::Env;
use std::sync::Wait;
use std::thread::Threads;
use std::time::CpuClock;
use std::{env, io};

/// Prints what the rounds came to, made with these threads.
pub fn run<R: Threads + Wait + Sync>(threads: &R, rt: &HostRuntime) -> io::Result<()> {
    let alloc = rt.alloc();
    let numbers = numbers_of(rt)?;
    let workers = number(&numbers, 0, 4, 1, 8) as u8;
    let block = number(&numbers, 1, 4096, 1, 4096);
    let gauges = if number(&numbers, 2, 4, 1, 4) == 1 {
        1
    } else {
        4
    };
    let samples = number(&numbers, 3, 1_000_000, 0, 100_000_000);
    let most = number(&numbers, 4, 1_000_000, 0, 1_000_000);
    let (Ok(grid), Ok(gain)) = (Grid::new(128, 2, -64000, 64), Gain::new(1000, 1, 0)) else {
        return Ok(());
    };
    let plan = Plan {
        grid,
        gauges,
        block,
        workers,
    };
    if gauges == 1 {
        let mut lanes = [lane(alloc, 0, gain, samples)?];
        return show(threads, rt, &plan, &mut lanes, most);
    }
    let mut lanes = [
        lane(alloc, 0, gain, samples)?,
        lane(alloc, 1, gain, samples)?,
        lane(alloc, 2, gain, samples)?,
        lane(alloc, 3, gain, samples)?,
    ];
    show(threads, rt, &plan, &mut lanes, most)
}

// The numbers among the words.
fn numbers_of(rt: &HostRuntime) -> io::Result<Vec<u32>> {
    let mut numbers = Vec::new(rt.alloc());
    for word in env::args(rt)?.skip(1) {
        if let Ok(number) = word.parse::<u32>() {
            numbers.push(number)?;
        }
    }
    Ok(numbers)
}

// The number at this place, where it is from `least` to `most`, or else `usual`.
fn number(numbers: &[u32], place: usize, usual: u32, least: u32, most: u32) -> u32
    requires { (least ≤ usual) × (usual ≤ most) }
    ensures { (least ≤ result) × (result ≤ most) }
{
    match numbers.get(place) {
        Some(number) if least <= *number && *number <= most => *number,
        _ => usual,
    }
}

// Makes rounds over these lanes, `most` at most, and prints what they came to.
fn show<R: Threads + Wait + Sync>(
    threads: &R,
    rt: &HostRuntime,
    plan: &Plan,
    lanes: &mut [Lane<SteadySource>],
    most: u32,
) -> io::Result<()>
    requires plan { IsPlan plan.now }
    requires some { 1 ≤ length lanes.old }
    requires long { length lanes.old ≡ plan.now.gauges }
    requires lanes { (g : ℕ) (d : _) → g < length lanes.old
        → CanRound g (slice_index_or lanes.old g d) }
{
    let Plan {
        gauges,
        block,
        workers,
        ..
    } = *plan;
    let mut prepared = Prepared::new(rt.alloc(), plan)?;
    let start = rt.process_cpu_time()?;
    let (made, used) = count(threads, &mut prepared, lanes, gauges, most);
    let end = rt.process_cpu_time()?;
    print!(rt; "workers {workers} block {block} gauges {gauges} rounds {made} used {used}")?;
    if env::args(rt)?.skip(1).any(|word| word.as_str() == "time") && end >= start {
        let hundredths = (end - start).as_nanos().wrapping_mul(100) / u128::from(used).max(1);
        print!(rt; " {hundredths}")?;
    }
    println!(rt)
}
