ghost use Rattle.std.specs.Prelude.{◌≡◌, ◌<◌, ◌≤◌, length, IfOk};
ghost use Rattle.calibration.specs.declared.limits.TheConstants.{MAX_GAUGES};

use calibration::{Gain, Grid, Items, MAX_SAMPLES, Setup};
use outside::station::{MomentStation, Torn};
use recording::Head;
use segment::Segment;
use segment_store::{PutFault, ResumeFault, Store, init};
use std::alloc::Global;
use std::process::Abort;
use std::test::Fail;
use store_bytes::segment_bytes::Layout;
use store_bytes::store_head::StoreHead;

/// What is counted of a gauge in one piece.
#[derive(Clone, Copy)]
pub struct Part {
    pub gauge: u16,
    pub from: u64,
    pub raws: &'static [i32],
}

/// The first four samples of a recording.
pub const FIRST: Part = Part {
    gauge: 0,
    from: 0,
    raws: &[-2, 1, -3, 5],
};

/// Its next five.
pub const NEXT: Part = Part {
    gauge: 0,
    from: 4,
    raws: &[-1, 3, -4, 4, -2],
};

/// Both at once: the standard's own example.
pub const WHOLE: Part = Part {
    gauge: 0,
    from: 0,
    raws: &[-2, 1, -3, 5, -1, 3, -4, 4, -2],
};

/// Why a part was not put.
#[derive(Clone, Copy, Debug, PartialEq, Eq)]
pub enum Refusal {
    Resuming(ResumeFault),
    Putting(PutFault),
}

/// 16 classes of 1 N/mm² from -8 N/mm², and gauges whose raw values are N/mm².
pub fn setup(alloc: Global, gauges: usize) -> Result<Setup, Fail>
    ensures { IfOk result (λ setup. length setup.gains ≡ gauges) }
{
    let gain = Gain::new(1000, 1, 0)?;
    Ok(Setup {
        grid: Grid::new(16, 2, -8000, 8)?,
        gains: Items::from_vec(vec![in alloc; gain; gauges]?),
    })
}

fn head(alloc: Global, gauges: usize) -> Result<StoreHead, Fail>
    ensures gains { IfOk result (λ head. length head.setup.gains ≡ gauges) }
    ensures heads { IfOk result (λ head. length head.heads ≡ gauges) }
{
    let head = Head {
        id: [0x11; 16],
        period_us: 10_000,
    };
    Ok(StoreHead {
        setup: setup(alloc, gauges)?,
        heads: Items::from_vec(vec![in alloc; head; gauges]?),
    })
}

/// A station on which a store was made.
pub fn made(alloc: Global, gauges: usize) -> Result<MomentStation, Fail>
    requires { gauges ≤ MAX_GAUGES }
{
    let mut station = MomentStation::new(alloc, Vec::new(alloc), Vec::new(alloc));
    init(alloc, &mut station, &head(alloc, gauges)?)?;
    Ok(station)
}

/// Likewise, of one gauge and this version.
pub fn made_in(rt: &impl Abort, alloc: Global, version: u8) -> Result<MomentStation, Fail> {
    let mut bytes = image(alloc, &made(alloc, 1)?)?;
    assert!(rt; bytes.len() == 63);
    bytes[5] = version;
    Ok(MomentStation::new(alloc, bytes, Vec::new(alloc)))
}

/// What stands on a station.
pub fn image(alloc: Global, station: &MomentStation) -> Result<Vec<u8>, Fail> {
    Ok(station.crash(alloc, station.calls(), Torn::New)?)
}

/// The samples of a part, counted one at a time.
pub fn counted(rt: &impl Abort, alloc: Global, grid: &Grid, part: Part) -> Result<Segment, Fail> {
    let gain = Gain::new(1000, 1, 0)?;
    assert!(rt; part.from <= MAX_SAMPLES);
    let mut segment = Segment::new(alloc, grid, part.gauge, part.from, 16)?;
    for raw in part.raws {
        let name = segment.name();
        assert!(rt; name.to < MAX_SAMPLES && name.from <= name.to && name.to - name.from < 16);
        assert!(rt; segment.longest() == 16);
        segment.take(*raw, &gain);
    }
    Ok(segment)
}

// Resumes the store on this station, and puts the segment into it.
fn put_segment(
    alloc: Global,
    station: &mut MomentStation,
    setup: &Setup,
    segment: &Segment,
) -> Result<(), Refusal>
    requires few { length setup.now.gains ≤ MAX_GAUGES }
    requires grid { segment.now.grid ≡ setup.now.grid }
    requires gauge { segment.now.gauge < length setup.now.gains }
    requires some { segment.now.from < segment.now.to }
{
    let mut store = match Store::resume(alloc, station, setup) {
        Ok(store) => store,
        Err(fault) => return Err(Refusal::Resuming(fault)),
    };
    match store.put(station, segment) {
        Ok(()) => Ok(()),
        Err(fault) => Err(Refusal::Putting(fault)),
    }
}

// The same, and once more where that shut the store.
fn put_again(
    alloc: Global,
    station: &mut MomentStation,
    setup: &Setup,
    segment: &Segment,
) -> Result<Option<PutFault>, Refusal>
    requires few { length setup.now.gains ≤ MAX_GAUGES }
    requires grid { segment.now.grid ≡ setup.now.grid }
    requires gauge { segment.now.gauge < length setup.now.gains }
    requires some { segment.now.from < segment.now.to }
{
    let mut store = match Store::resume(alloc, station, setup) {
        Ok(store) => store,
        Err(fault) => return Err(Refusal::Resuming(fault)),
    };
    match store.put(station, segment) {
        Err(PutFault::DiskFault) if store.is_shut() => Ok(store.put(station, segment).err()),
        Err(fault) => Err(Refusal::Putting(fault)),
        Ok(()) => Ok(None),
    }
}

/// What a further put answers after one that failed, on a station of one gauge.
pub fn put_after_a_failure(
    rt: &impl Abort,
    alloc: Global,
    station: &mut MomentStation,
    part: Part,
) -> Result<Result<Option<PutFault>, Refusal>, Fail> {
    let setup = setup(alloc, 1)?;
    let segment = counted(rt, alloc, &setup.grid, part)?;
    Ok(put_fit_again(rt, alloc, station, &setup, &segment))
}

fn put_fit_again(
    rt: &impl Abort,
    alloc: Global,
    station: &mut MomentStation,
    setup: &Setup,
    segment: &Segment,
) -> Result<Option<PutFault>, Refusal>
    requires few { length setup.now.gains ≤ MAX_GAUGES }
{
    let name = segment.name();
    assert!(rt; segment.grid() == setup.grid);
    assert!(rt; usize::from(name.gauge) < setup.gains.as_slice().len());
    assert!(rt; name.from < name.to);
    put_again(alloc, station, setup, segment)
}

// The same, for a segment that fits.
fn put_fit(
    rt: &impl Abort,
    alloc: Global,
    station: &mut MomentStation,
    setup: &Setup,
    segment: &Segment,
) -> Result<(), Refusal>
    requires few { length setup.now.gains ≤ MAX_GAUGES }
{
    let name = segment.name();
    assert!(rt; segment.grid() == setup.grid);
    assert!(rt; usize::from(name.gauge) < setup.gains.as_slice().len());
    assert!(rt; name.from < name.to);
    put_segment(alloc, station, setup, segment)
}

/// Resumes the store on this station, and puts the part into it.
pub fn put(
    rt: &impl Abort,
    alloc: Global,
    gauges: usize,
    station: &mut MomentStation,
    part: Part,
) -> Result<Result<(), Refusal>, Fail>
    requires { gauges ≤ MAX_GAUGES }
{
    let setup = setup(alloc, gauges)?;
    let segment = counted(rt, alloc, &setup.grid, part)?;
    Ok(put_fit(rt, alloc, station, &setup, &segment))
}

/// The bytes of a store with these parts.
pub fn stored(
    rt: &impl Abort,
    alloc: Global,
    gauges: usize,
    parts: &[Part],
) -> Result<Vec<u8>, Fail>
    requires { gauges ≤ MAX_GAUGES }
{
    let mut station = made(alloc, gauges)?;
    for part in parts {
        put(rt, alloc, gauges, &mut station, *part)??;
    }
    image(alloc, &station)
}

/// The bytes of a store of one gauge and this version with these parts.
pub fn stored_in(
    rt: &impl Abort,
    alloc: Global,
    version: u8,
    parts: &[Part],
) -> Result<Vec<u8>, Fail> {
    let mut station = made_in(rt, alloc, version)?;
    for part in parts {
        put(rt, alloc, 1, &mut station, *part)??;
    }
    image(alloc, &station)
}

/// Up to where gauge 0 is held in the store with these bytes, or why it is not resumed.
pub fn held(alloc: Global, bytes: Vec<u8>) -> Result<Result<u64, ResumeFault>, Fail> {
    let setup = setup(alloc, 1)?;
    let mut station = MomentStation::new(alloc, bytes, Vec::new(alloc));
    match Store::resume(alloc, &mut station, &setup) {
        Ok(store) => Ok(Ok(store.held(0).name().to)),
        Err(fault) => Ok(Err(fault)),
    }
}

/// Asserts that the store with these bytes holds the standard's example, in bodies of this layout.
pub fn assert_whole(
    rt: &impl Abort,
    alloc: Global,
    bytes: Vec<u8>,
    layout: Layout,
) -> Result<(), Fail> {
    let setup = setup(alloc, 1)?;
    let mut station = MomentStation::new(alloc, bytes, Vec::new(alloc));
    let store = Store::resume(alloc, &mut station, &setup)?;
    assert_eq!(rt; store.layout(), layout);
    let held = store.held(0);
    let name = held.name();
    assert_eq!(rt; (name.from, name.to, held.used()), (0, 9, 9));
    assert_eq!(rt; held.residue(), [6, 9, 5, 13, 4, 12, 6].as_slice());
    assert_eq!(rt; held.cycles(7, 11), 1);
    Ok(())
}
