ghost use Rattle.std.specs.Prelude.{◌≡◌, IfOk};

use calibration::{Gain, Grid, Items, Setup};
use count_command::{count_command, watch_command};
use init_command::init_command;
use outside::station::{MomentStation, Torn};
use outside::{Gate, MapSite, OpenGate, SteadySource, VecSink};
use recording::{Head, write_head, write_samples};
use segment_store::Store;
use status::Status;
use std::alloc::Global;
use std::collections::BTreeMap;
use std::process::Abort;
use std::sync::Wait;
use std::test::Fail;
use std::thread::Threads;

/// One gauge over 16 classes of 1 N/mm² from -8 N/mm², in blocks of four, by two workers. A raw
/// value is eight less than its level.
pub const COMMON: &str = r#"
[grid]
classes = 16
width = 2
low = -8000
reference = 8
[count]
block = 4
workers = 2
[[gauge]]
name = "G1"
file = "g1.sgrc"
num = 1000
[[detail]]
name = "W1"
gauge = "G1"
kind = "normal"
category = 71
gamma = 100
"#;

/// The standard's own example.
pub const EXAMPLE: &[i32] = &[-2, 1, -3, 5, -1, 3, -4, 4, -2];

/// Its report.
pub const EXAMPLE_REPORT: &str = "gauge G1
samples 9 used 9 missing 0 refused 0
rainflow
9.0 0.5
8.0 1.0
6.0 0.5
4.0 1.5
3.0 0.5
matrix
4 12 0.5
4 13 0.5
5 9 0.5
5 13 0.5
6 9 0.5
6 12 0.5
7 11 1.0
crossings
5 1
6 2
7 3
8 4
9 4
10 3
11 3
12 2
13 1
peaks
9 1
11 1
12 1
13 1
valleys
4 1
5 1
7 1
ranges
8.0 1.0
7.0 0.5
6.0 1.0
4.0 1.0
3.0 0.5
detail W1 G1 0 0/100431314774943243998824192000000000 0.000000000
";

/// The bytes of a recording whose id is this byte sixteen times.
pub fn recording_of(alloc: Global, id: u8, raws: &[i32]) -> Result<Vec<u8>, Fail> {
    let mut out = VecSink::new(alloc, 4096, Vec::new(alloc))?;
    let head = Head {
        id: [id; 16],
        period_us: 10_000,
    };
    write_head(&mut out, &head)?;
    write_samples(&mut out, raws)?;
    Ok(out.written().to_vec(alloc)?)
}

/// A site of one file.
pub fn site_of(alloc: Global, file: Vec<u8>) -> Result<MapSite, Fail>
    ensures { IfOk result (λ site. site.out ≡ 0) }
{
    let mut files = BTreeMap::new(alloc);
    files.insert(String::from_str(alloc, "g1.sgrc")?, file)?;
    Ok(MapSite::new(alloc, files, 7, Vec::new(alloc)))
}

/// Up to where the only gauge is held in the store with these bytes.
pub fn held(alloc: Global, image: Vec<u8>) -> Result<u64, Fail> {
    let gain = Gain::new(1000, 1, 0)?;
    let setup = Setup {
        grid: Grid::new(16, 2, -8000, 8)?,
        gains: Items::from_vec(vec![in alloc; gain]?),
    };
    let mut station = MomentStation::new(alloc, image, Vec::new(alloc));
    let store = Store::resume(alloc, &mut station, &setup)?;
    Ok(store.held(0).name().to)
}

/// What stands on a station.
pub fn image(alloc: Global, station: &MomentStation) -> Result<Vec<u8>, Fail> {
    Ok(station.crash(alloc, station.calls(), Torn::New)?)
}

/// A station on which `init` made the store of this configuration and site.
pub fn made_over(
    rt: &impl Abort,
    alloc: Global,
    config: &str,
    site: &mut MapSite,
) -> Result<MomentStation, Fail>
    requires { site.old.out ≡ 0 }
{
    let mut station = MomentStation::new(alloc, Vec::new(alloc), Vec::new(alloc));
    let mut source = SteadySource::new(config.as_bytes().to_vec(alloc)?);
    let status = init_command(alloc, &mut source, site, &mut station);
    assert_eq!(rt; status, Status::Done);
    Ok(station)
}

/// A store that `init` made of the common configuration and a recording.
pub fn made(rt: &impl Abort, alloc: Global) -> Result<Vec<u8>, Fail> {
    let mut site = site_of(alloc, recording_of(alloc, 0x11, &[])?)?;
    let station = made_over(rt, alloc, COMMON, &mut site)?;
    assert_eq!(rt; station.told(), b"init 1\n".as_slice());
    image(alloc, &station)
}

/// The commands that count.
#[derive(Clone, Copy, Debug)]
pub enum Word {
    Count,
    Watch,
}

/// What a run of such a command did.
#[derive(Drop)]
pub struct Run {
    pub status: Status,
    pub station: MomentStation,
    pub out: VecSink,
}

/// Runs a command over this configuration, site and station. The output has so much room.
pub fn run_over<R: AllocGlobal + Threads + Wait + Sync, G: Gate + Sync>(
    rt: &R,
    word: Word,
    config: &str,
    site: &mut MapSite,
    mut station: MomentStation,
    room: usize,
    gate: &G,
) -> Result<Run, Fail>
    requires { site.old.out ≡ 0 }
{
    let alloc = rt.alloc();
    let mut source = SteadySource::new(config.as_bytes().to_vec(alloc)?);
    let mut out = VecSink::new(alloc, room, Vec::new(alloc))?;
    let status = match word {
        Word::Count => count_command(rt, None, &mut source, site, &mut station, &mut out, gate),
        Word::Watch => watch_command(rt, None, &mut source, site, &mut station, &mut out, gate),
    };
    Ok(Run {
        status,
        station,
        out,
    })
}

/// Runs a command over the common configuration, a recording, and a station with this image, on
/// which the calls of these numbers fail.
pub fn run_at<R: AllocGlobal + Threads + Wait + Sync, G: Gate + Sync>(
    rt: &R,
    word: Word,
    file: Vec<u8>,
    image: Vec<u8>,
    failing: Vec<u64>,
    room: usize,
    gate: &G,
) -> Result<Run, Fail> {
    let mut site = site_of(rt.alloc(), file)?;
    let station = MomentStation::new(rt.alloc(), image, failing);
    run_over(rt, word, COMMON, &mut site, station, room, gate)
}

/// Likewise, where nothing fails.
pub fn run_by<R: AllocGlobal + Threads + Wait + Sync>(
    rt: &R,
    word: Word,
    file: Vec<u8>,
    image: Vec<u8>,
) -> Result<Run, Fail> {
    run_at(rt, word, file, image, Vec::new(rt.alloc()), 2000, &OpenGate)
}

/// Runs `count` likewise.
pub fn count<R: AllocGlobal + Threads + Wait + Sync>(
    rt: &R,
    file: Vec<u8>,
    image: Vec<u8>,
) -> Result<Run, Fail> {
    run_by(rt, Word::Count, file, image)
}
