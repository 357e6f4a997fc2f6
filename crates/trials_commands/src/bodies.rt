//! A store of two bodies, and commands over it by their words.

use crate::sites::{EXAMPLE, Run, count, image, made, recording_of, site_of};
use monitor::monitor;
use outside::station::MomentStation;
use outside::{OpenGate, SteadySource, VecSink};
use std::process::Abort;
use std::sync::Wait;
use std::test::Fail;
use std::thread::Threads;

/// A store of the standard's example, of which the first four samples were counted before the
/// others: the bodies are 0 to 4 and 4 to 9, of samples that stand 10 ms apart.
pub fn two_bodies<R: Abort + AllocGlobal + Threads + Wait + Sync>(rt: &R) -> Result<Vec<u8>, Fail> {
    let alloc = rt.alloc();
    let first = count(
        rt,
        recording_of(alloc, 0x11, &EXAMPLE[..4])?,
        made(rt, alloc)?,
    )?;
    let second = count(
        rt,
        recording_of(alloc, 0x11, EXAMPLE)?,
        image(alloc, &first.station)?,
    )?;
    image(alloc, &second.station)
}

/// Does what these words say, over a configuration and a store.
pub fn run_line<R: AllocGlobal + Threads + Wait + Sync>(
    rt: &R,
    line: &str,
    config: &str,
    mut station: MomentStation,
    mut out: VecSink,
) -> Result<Run, Fail> {
    let alloc = rt.alloc();
    let mut words = Vec::new(alloc);
    for word in line.split(' ') {
        words.push(String::from_str(alloc, word)?)?;
    }
    let mut source = SteadySource::new(config.as_bytes().to_vec(alloc)?);
    let mut site = site_of(alloc, Vec::new(alloc))?;
    let status = monitor(
        rt,
        words.as_slice(),
        &mut source,
        &mut site,
        &mut station,
        &mut out,
        &OpenGate,
    );
    Ok(Run {
        status,
        station,
        out,
    })
}
