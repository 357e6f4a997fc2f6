//! Blocks of levels through the reducers and tallies of one unit or of 512, each block's tally
//! merged into that of a board and emptied: for each plan a digest of what the boards hold, and
//! with the word `time` also the processor time, in hundredths of a nanosecond to the sample, of
//! all and of the pushes alone.
//!
//! Only safety is proved here. What the calls do is said by their own contracts; two forms of a
//! tally that count the same history have equal digests.

mod blocks;
mod history;
mod plan;

use blocks::Site;
use history::levels_of;
use plan::Plan;
use std::rt::Env;
use std::time::CpuClock;
use std::{env, io};

/// How often a plan is repeated where its time is asked for. The least time counts.
const REPEATS: u32 = 7;

/// Prints all.
pub fn run(rt: &HostRuntime) -> io::Result<()> {
    let is_timed = env::args(rt)?.skip(1).any(|word| word.as_str() == "time");
    for plan in Plan::all(rt.alloc())?.into_iter() {
        let levels = levels_of(rt.alloc(), plan.history, plan.classes)?;
        let mut site = Site::new(rt.alloc(), plan)?;
        site.count(&levels, true);
        let digest = site.digest();
        if is_timed {
            let all = time_of(rt, &mut site, &levels, true)?;
            let pushes = time_of(rt, &mut site, &levels, false)?;
            println!(rt; "{plan} {digest} {all} {pushes}")?;
        } else {
            println!(rt; "{plan} {digest}")?;
        }
    }
    Ok(())
}

// The least processor time of a plan, in hundredths of a nanosecond to the sample.
fn time_of<R: CpuClock>(
    rt: &R,
    site: &mut Site,
    levels: &[u16],
    is_merged: bool,
) -> io::Result<u128> {
    let mut least = u128::MAX;
    for _ in 0..REPEATS {
        let start = rt.process_cpu_time()?;
        site.count(levels, is_merged);
        let end = rt.process_cpu_time()?;
        if end >= start {
            least = least.min((end - start).as_nanos());
        }
    }
    Ok(least.wrapping_mul(100) / levels.len().max(1) as u128)
}
