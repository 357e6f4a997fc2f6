//! The bytes that are made of a full segment, and what they take: its text in a report, its body
//! in a store, and the SHA-256 of the body, which the store has behind it; the segment that is read
//! from the body and joined to what is held, which has the same body; and a store in memory with
//! that body, which is resumed, and whose held segment has the same body again. For each a digest
//! of its bytes, and with the word `time` also the least processor time of nine calls, in
//! microseconds, over a segment of so much noise that nearly every pair of levels was counted; and
//! then the SHA-256 of the bytes of that store too.
//!
//! Only safety is proved here. What the calls write is said by their own contracts.

mod made;
mod stored;

use calibration::MAX_SAMPLES;
use made::{body_of, digest_of, join_body, noise_segment};
use report::{Page, gauge_text};
use segment::Segment;
use segment_store::Store;
use sha2::{Digest, Sha256};
use std::rt::Env;
use std::time::{CpuClock, Duration};
use std::{env, fmt, io};
use store_bytes::segment_bytes::{Layout, max_body};
use stored::{image_of, setup_of, stored};

const REPEATS: u32 = 9;

// How many samples are counted, and how many where times are asked for.
const FEW: u32 = 1 << 13;

const MANY: u32 = 1 << 24;

/// Prints all.
pub fn run(rt: &HostRuntime) -> io::Result<()> {
    let is_timed = env::args(rt)?.skip(1).any(|word| word.as_str() == "time");
    let (samples, repeats) = if is_timed { (MANY, REPEATS) } else { (FEW, 1) };
    for classes in [128, 1024] {
        let segment = noise_segment(rt.alloc(), classes, samples)?;
        show_all(rt, repeats, &segment)?;
    }
    Ok(())
}

// What is made of a segment, each in a line.
fn show_all<R: CpuClock + AllocGlobal + Print>(
    rt: &R,
    repeats: u32,
    segment: &Segment,
) -> io::Result<()> {
    for what in [
        What::Text,
        What::Body,
        What::Sha256,
        What::Joined,
        What::Resumed,
    ] {
        show(rt, repeats, segment, what)?;
    }
    // Its digest is written nowhere, so that it is a measure alone.
    if repeats > 1 {
        show(rt, repeats, segment, What::StoreSha256)?;
    }
    Ok(())
}

// What is made of a segment.
#[derive(Clone, Copy, Debug, PartialEq, Eq)]
enum What {
    Text,
    Body,
    Sha256,
    Joined,
    Resumed,
    StoreSha256,
}

impl What {
    fn time<R: CpuClock + AllocGlobal>(self, rt: &R, segment: &Segment) -> io::Result<(u64, u128)> {
        match self {
            What::Text => time_text(rt, segment),
            What::Body => time_body(rt, segment),
            What::Sha256 => time_sha256(rt, segment),
            What::Joined => time_joined(rt, segment),
            What::Resumed => time_resumed(rt, segment),
            What::StoreSha256 => time_store_sha256(rt, segment),
        }
    }
}

impl fmt::Display for What {
    fn fmt<W: fmt::Write>(&self, f: &mut fmt::Formatter<W>) -> fmt::Result {
        f.write_str(match self {
            What::Text => "gauge_text",
            What::Body => "body",
            What::Sha256 => "sha256_of_body",
            What::Joined => "body_joined",
            What::Resumed => "resumed",
            What::StoreSha256 => "sha256_of_store",
        })
    }
}

// The nanoseconds between two readings of the clock.
fn nanos(start: Duration, end: Duration) -> u128 {
    if end >= start {
        (end - start).as_nanos()
    } else {
        u128::MAX
    }
}

// A digest of the text of a gauge in a report, and what a call takes, in nanoseconds.
fn time_text<R: CpuClock + AllocGlobal>(rt: &R, segment: &Segment) -> io::Result<(u64, u128)> {
    let mut page = Page::new(rt.alloc(), segment.grid().classes())?;
    let start = rt.process_cpu_time()?;
    gauge_text(&mut page, "gauge", segment);
    let end = rt.process_cpu_time()?;
    Ok((digest_of(page.bytes()), nanos(start, end)))
}

// Likewise of the body in a store.
fn time_body<R: CpuClock + AllocGlobal>(rt: &R, segment: &Segment) -> io::Result<(u64, u128)> {
    let longest = max_body(Layout::Two, segment.grid().classes());
    let mut buf = vec![in rt.alloc(); 0; longest]?;
    let start = rt.process_cpu_time()?;
    let body = body_of(segment, &mut buf);
    let end = rt.process_cpu_time()?;
    Ok((digest_of(body), nanos(start, end)))
}

// Likewise of the SHA-256 of the body.
fn time_sha256<R: CpuClock + AllocGlobal>(rt: &R, segment: &Segment) -> io::Result<(u64, u128)> {
    let longest = max_body(Layout::Two, segment.grid().classes());
    let mut buf = vec![in rt.alloc(); 0; longest]?;
    let body = body_of(segment, &mut buf);
    let start = rt.process_cpu_time()?;
    let sha256 = Sha256::digest(body);
    let end = rt.process_cpu_time()?;
    Ok((digest_of(&sha256), nanos(start, end)))
}

// Likewise of the body of what is held after the body was read and joined.
fn time_joined<R: CpuClock + AllocGlobal>(rt: &R, segment: &Segment) -> io::Result<(u64, u128)> {
    let longest = max_body(Layout::Two, segment.grid().classes());
    let mut buf = vec![in rt.alloc(); 0; longest]?;
    let body = body_of(segment, &mut buf);
    let mut held = Segment::new(rt.alloc(), &segment.grid(), 0, 0, MAX_SAMPLES)?;
    let start = rt.process_cpu_time()?;
    join_body(rt.alloc(), &mut held, body);
    let end = rt.process_cpu_time()?;
    Ok((digest_of(body_of(&held, &mut buf)), nanos(start, end)))
}

// Likewise of the body of what is held after the store with the segment was resumed. Of a store
// that is not resumed it is that of no bytes.
fn time_resumed<R: CpuClock + AllocGlobal>(rt: &R, segment: &Segment) -> io::Result<(u64, u128)> {
    let longest = max_body(Layout::Two, segment.grid().classes());
    let mut buf = vec![in rt.alloc(); 0; longest]?;
    let setup = setup_of(rt.alloc(), &segment.grid())?;
    let mut station = stored(rt.alloc(), segment)?;
    let start = rt.process_cpu_time()?;
    let resumed = Store::resume(rt.alloc(), &mut station, &setup);
    let end = rt.process_cpu_time()?;
    let digest = match &resumed {
        Ok(store) => digest_of(body_of(store.held(0), &mut buf)),
        Err(_) => digest_of(&[]),
    };
    Ok((digest, nanos(start, end)))
}

// Likewise of the SHA-256 of the bytes of that store.
fn time_store_sha256<R: CpuClock + AllocGlobal>(
    rt: &R,
    segment: &Segment,
) -> io::Result<(u64, u128)> {
    let station = stored(rt.alloc(), segment)?;
    let bytes = image_of(rt.alloc(), &station)?;
    let start = rt.process_cpu_time()?;
    let sha256 = Sha256::digest(&bytes);
    let end = rt.process_cpu_time()?;
    Ok((digest_of(&sha256), nanos(start, end)))
}

// The same digest and the least time of so many calls.
fn show<R: CpuClock + AllocGlobal + Print>(
    rt: &R,
    repeats: u32,
    segment: &Segment,
    what: What,
) -> io::Result<()> {
    let (digest, mut least) = what.time(rt, segment)?;
    for _ in 1..repeats {
        let (_, time) = what.time(rt, segment)?;
        least = least.min(time);
    }
    let classes = segment.grid().classes();
    if repeats > 1 {
        println!(rt; "{what}_of_{classes} {digest} {}", least / 1000)
    } else {
        println!(rt; "{what}_of_{classes} {digest}")
    }
}
