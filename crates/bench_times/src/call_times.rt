//! Single calls of the counting crates over one recording that is made here: for each a digest of
//! what it answers, and with the word `time` also its processor time, in hundredths of a nanosecond
//! to the sample. `bench/src/calls.c` prints the same digests. Crossings and simple counts are
//! taken of a walk, noise and a sine, by the points of blocks of 1,024 levels (each block 16 times)
//! and by levels. Segments of the same signals are made by blocks, each counted by one segment, or
//! by 512 in turn, and joined to those before it, and by samples.
//!
//! Only safety is proved here. What the calls answer is said by their own contracts; the digests
//! show that the C program beside them does the same work.

mod calls;
mod counts;
mod digest;
mod segments;
mod signal;

use calibration::Grid;
use calls::{Call, Recording, answer};
use counts::{Count, counted_by};
use segments::{MANY_SAMPLES, Maker, Way};
use signal::{Signal, levels_of, raws_of};
use std::rt::Env;
use std::time::CpuClock;
use std::{env, io};

/// How often a call is repeated where its time is asked for. The least time counts.
const REPEATS: u32 = 9;

/// Prints all.
pub fn run(rt: &HostRuntime) -> io::Result<()> {
    let is_timed = env::args(rt)?.skip(1).any(|word| word.as_str() == "time");
    let recording = Recording::new(rt.alloc())?;
    for call in Call::ALL {
        let digest = answer(rt.alloc(), call, &recording)?;
        if is_timed {
            let hundredths = time_of(rt, call, &recording)?;
            println!(rt; "{call} {digest} {hundredths}")?;
        } else {
            println!(rt; "{call} {digest}")?;
        }
    }
    show_counts(rt, is_timed)?;
    show_segments(rt, is_timed)
}

// How many levels each signal has.
const LEVELS: u32 = 1 << 17;

// Each way to count over each signal.
fn show_counts<R: CpuClock + AllocGlobal + Print>(rt: &R, is_timed: bool) -> io::Result<()> {
    let Ok(grid) = Grid::new(128, 2, -64000, 64) else {
        return Ok(());
    };
    for signal in Signal::ALL {
        show_counts_of(rt, is_timed, &grid, signal)?;
    }
    Ok(())
}

// Each way to count over one signal.
fn show_counts_of<R: CpuClock + AllocGlobal + Print>(
    rt: &R,
    is_timed: bool,
    grid: &Grid,
    signal: Signal,
) -> io::Result<()> {
    let levels = levels_of(rt.alloc(), signal, LEVELS)?;
    for count in Count::ALL {
        let digest = counted_by(rt.alloc(), count, grid, &levels)?;
        if is_timed {
            let hundredths = time_of_count(rt, count, grid, &levels)?;
            println!(rt; "{count}_{signal} {digest} {hundredths}")?;
        } else {
            println!(rt; "{count}_{signal} {digest}")?;
        }
    }
    Ok(())
}

// The least processor time of a way to count, in hundredths of a nanosecond to the level; by points
// each is taken 16 times.
fn time_of_count<R: CpuClock + AllocGlobal>(
    rt: &R,
    count: Count,
    grid: &Grid,
    levels: &[u16],
) -> io::Result<u128> {
    let mut least = u128::MAX;
    for _ in 0..REPEATS {
        let start = rt.process_cpu_time()?;
        counted_by(rt.alloc(), count, grid, levels)?;
        let end = rt.process_cpu_time()?;
        if end >= start {
            least = least.min((end - start).as_nanos());
        }
    }
    Ok(least.wrapping_mul(100) / LEVELS as u128)
}

// Each way to make a segment, over each signal.
fn show_segments<R: CpuClock + AllocGlobal + Print>(rt: &R, is_timed: bool) -> io::Result<()> {
    let Ok(grid) = Grid::new(128, 2, -64000, 64) else {
        return Ok(());
    };
    for signal in Signal::ALL {
        show_segments_of(rt, is_timed, &grid, signal)?;
    }
    Ok(())
}

// Each way to make a segment, over one signal.
fn show_segments_of<R: CpuClock + AllocGlobal + Print>(
    rt: &R,
    is_timed: bool,
    grid: &Grid,
    signal: Signal,
) -> io::Result<()> {
    let raws = raws_of(rt.alloc(), &levels_of(rt.alloc(), signal, MANY_SAMPLES)?)?;
    for way in Way::ALL {
        let few = &raws[..raws.len().min(way.samples() as usize)];
        let mut maker = Maker::new(rt.alloc(), way, grid)?;
        let digest = maker.make(few);
        if is_timed {
            let hundredths = time_of_segment(rt, &mut maker, few)?;
            println!(rt; "{way}_{signal} {digest} {hundredths}")?;
        } else {
            println!(rt; "{way}_{signal} {digest}")?;
        }
    }
    Ok(())
}

// The least processor time of a way to make a segment, in hundredths of a nanosecond to the sample.
fn time_of_segment<R: CpuClock>(rt: &R, maker: &mut Maker, raws: &[i32]) -> io::Result<u128> {
    let mut least = u128::MAX;
    for _ in 0..REPEATS {
        let start = rt.process_cpu_time()?;
        maker.make(raws);
        let end = rt.process_cpu_time()?;
        if end >= start {
            least = least.min((end - start).as_nanos());
        }
    }
    Ok(least.wrapping_mul(100) / raws.len().max(1) as u128)
}

// The least processor time of a call over the recording, in hundredths of a nanosecond to the
// sample.
fn time_of<R: CpuClock + AllocGlobal>(
    rt: &R,
    call: Call,
    recording: &Recording,
) -> io::Result<u128> {
    let mut least = u128::MAX;
    for _ in 0..REPEATS {
        let start = rt.process_cpu_time()?;
        answer(rt.alloc(), call, recording)?;
        let end = rt.process_cpu_time()?;
        if end >= start {
            least = least.min((end - start).as_nanos());
        }
    }
    Ok(least.wrapping_mul(100) / recording.len().max(1) as u128)
}
