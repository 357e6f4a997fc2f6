//! What it takes to read a column of a CSV text, beside a plain walk over the same records, and to
//! write a sheet. For each a digest of what came, and with the word `time` also the least processor
//! time of nine calls, in nanoseconds a row, over a million rows of four columns.
//!
//! Only safety is proved here. What the calls give is said by their own contracts.

mod made;

use made::{column_digest, sheet_digest, text_of, walk_digest};
use std::rt::Env;
use std::time::CpuClock;
use std::{env, fmt, io};

const REPEATS: u32 = 9;

// How many rows there are, and how many where times are asked for.
const FEW: u32 = 1000;

const MANY: u32 = 1_000_000;

/// Prints all.
pub fn run(rt: &HostRuntime) -> io::Result<()> {
    let is_timed = env::args(rt)?.skip(1).any(|word| word.as_str() == "time");
    let (rows, repeats) = if is_timed { (MANY, REPEATS) } else { (FEW, 1) };
    let text = text_of(rt.alloc(), rows)?;
    for what in [What::Walk, What::Column, What::Sheet] {
        show(rt, rows, repeats, text.as_slice(), what)?;
    }
    Ok(())
}

// What is done with a text.
#[derive(Clone, Copy, Debug, PartialEq, Eq)]
enum What {
    Walk,
    Column,
    Sheet,
}

impl What {
    fn digest<R: AllocGlobal>(self, rt: &R, text: &[u8]) -> io::Result<u64> {
        match self {
            What::Walk => walk_digest(rt.alloc(), text),
            What::Column => column_digest(rt.alloc(), text),
            What::Sheet => sheet_digest(rt.alloc(), text),
        }
    }
}

impl fmt::Display for What {
    fn fmt<W: fmt::Write>(&self, f: &mut fmt::Formatter<W>) -> fmt::Result {
        f.write_str(match self {
            What::Walk => "walk",
            What::Column => "column",
            What::Sheet => "sheet",
        })
    }
}

// A digest of what came, and what it took, in nanoseconds.
fn time<R: CpuClock + AllocGlobal>(rt: &R, text: &[u8], what: What) -> io::Result<(u64, u128)> {
    let start = rt.process_cpu_time()?;
    let digest = what.digest(rt, text)?;
    let end = rt.process_cpu_time()?;
    let time = if end >= start {
        (end - start).as_nanos()
    } else {
        u128::MAX
    };
    Ok((digest, time))
}

// The same digest and the least time of so many calls.
fn show<R: CpuClock + AllocGlobal + Print>(
    rt: &R,
    rows: u32,
    repeats: u32,
    text: &[u8],
    what: What,
) -> io::Result<()> {
    let (digest, mut least) = time(rt, text, what)?;
    for _ in 1..repeats {
        least = least.min(time(rt, text, what)?.1);
    }
    if repeats > 1 && rows > 0 {
        println!(rt; "{what} {digest} {}", least / u128::from(rows))
    } else {
        println!(rt; "{what} {digest}")
    }
}
