ghost use Rattle.std.specs.Prelude.{◌≡◌, ◌≤◌, ◌⊎◌};
ghost use Rattle.calibration.specs.declared.grid.TheConstants.{MAX_CLASSES};
ghost use Rattle.store_bytes.specs.declared.segment_bytes.layout.TheConstants.{MAX_CLASSES_ONE};

use calibration::{Classifier, Gain, Grid, MAX_SAMPLES};
use segment::Segment;
use std::alloc::{AllocError, Global};
use store_bytes::segment_bytes::{Layout, decode, encode, max_body};

const BLOCK: usize = 4096;

/// A digest of bytes in their order.
pub fn digest_of(bytes: &[u8]) -> u64 {
    let mut state = 1u64;
    for &byte in bytes {
        state = (state ^ u64::from(byte)).wrapping_mul(0x9e37_79b9_7f4a_7c15);
    }
    state
}

/// The body of a segment, at the front of a buffer. Without room there is none.
pub fn body_of<'a>(segment: &Segment, buf: &'a mut [u8]) -> &'a [u8] {
    if max_body(Layout::Two, segment.grid().classes()) > buf.len() {
        return &[];
    }
    let n = encode(Layout::Two, segment, buf);
    if n <= buf.len() { &buf[..n] } else { &[] }
}

// The next block of noise below so many classes.
fn make_noise(state: &mut u64, classes: u16, raws: &mut [i32])
    requires { 1 ≤ classes }
{
    for raw in raws {
        *state = state
            .wrapping_mul(6364136223846793005)
            .wrapping_add(1442695040888963407);
        *raw = ((*state >> 33) % u64::from(classes)) as i32;
    }
}

/// Reads the segment of a body, and joins it behind what is held. One that has no room there is
/// left out.
pub fn join_body(alloc: Global, held: &mut Segment, body: &[u8]) {
    let Ok(segment) = decode(alloc, Layout::Two, &held.grid(), body) else {
        return;
    };
    join_next(held, &segment);
}

// Joins a segment behind the whole, if it comes next and there is room for it.
fn join_next(whole: &mut Segment, next: &Segment) {
    let (name, more) = (whole.name(), next.name());
    if whole.grid() != next.grid()
        || more.to - more.from > whole.longest() - (name.to - name.from)
    {
        return;
    }
    let _answer = whole.join(next);
}

// Counts a block by the unit's segment, and joins that behind the whole. A block that one of them
// has no room for is left out.
fn join_block(
    whole: &mut Segment,
    unit: &mut Segment,
    raws: &[i32],
    classifier: &Classifier,
    levels: &mut [u16],
)
    requires grid { classifier.now.grid ≡ unit.old.grid }
    ensures grid { unit.new.grid ≡ unit.old.grid }
{
    let more = raws.len() as u64;
    let name = whole.name();
    if whole.grid() != unit.grid() || raws.len() > levels.len() || more > unit.longest() {
        return;
    }
    if more > MAX_SAMPLES - name.to || more > whole.longest() - (name.to - name.from) {
        return;
    }
    unit.clear(name.gauge, name.to);
    unit.count_block(raws, classifier, levels);
    let _answer = whole.join(unit);
}

// Classes of 0.5 N/mm² whose numbers are the raw values.
fn grid_of(classes: u16) -> Grid
    requires { (classes ≡ MAX_CLASSES_ONE) ⊎ (classes ≡ MAX_CLASSES) }
{
    match Grid::new(classes, 1, 0, classes / 2) {
        Ok(grid) => grid,
        Err(_) => unreachable!(),
    }
}

/// A raw value is a step of 1 N/mm².
pub fn gain() -> Gain {
    match Gain::new(500, 1, 0) {
        Ok(gain) => gain,
        Err(_) => unreachable!(),
    }
}

/// The segment of so many samples of noise over 128 or 1024 classes, in blocks.
pub fn noise_segment(alloc: Global, classes: u16, samples: u32) -> Result<Segment, AllocError>
    requires classes { (classes ≡ MAX_CLASSES_ONE) ⊎ (classes ≡ MAX_CLASSES) }
    requires some { 1 ≤ samples }
{
    let grid = grid_of(classes);
    let classifier = Classifier::new(&gain(), &grid);
    let mut whole = Segment::new(alloc, &grid, 0, 0, u64::from(samples))?;
    let mut unit = Segment::new(alloc, &grid, 0, 0, BLOCK as u64)?;
    let mut levels = vec![in alloc; 0; BLOCK]?;
    let mut raws = [0; BLOCK];
    let mut state = 0u64;
    for _ in 0..samples / BLOCK as u32 {
        make_noise(&mut state, classes, &mut raws);
        join_block(&mut whole, &mut unit, &raws, &classifier, &mut levels);
    }
    Ok(whole)
}
