use calibration::{Gain, Grid, MAX_SAMPLES};
use repeating::Repeating;
use segment::Segment;
use std::alloc::{AllocError, Global};
use std::process::Abort;
use std::test::Fail;
use tally::Cell;

/// Raw values, and the cycles of their history repeating: two levels and how many. A raw value `r`
/// has level `r + 8`.
type Row = (&'static [i32], &'static [(u16, u16, u64)]);

// By hand from the standard.
const ROWS: &[Row] = &[
    (&[], &[]),
    (&[2, 2, 2], &[]),
    (&[0, 5], &[(8, 13, 1)]),
    (&[0, 5, 0], &[(8, 13, 1)]),
    // One more cycle, that the history has by itself.
    (&[0, 5, 0, 5], &[(8, 13, 2)]),
    // The standard's own example.
    (
        &[-2, 1, -3, 5, -1, 3, -4, 4, -2],
        &[(4, 13, 1), (5, 12, 1), (6, 9, 1), (7, 11, 1)],
    ),
    // Missing and refused readings are passed over.
    (&[7, 8, i32::MIN, -8, -9], &[(0, 15, 1)]),
];

// The sums of the cycles of 2,000 histories, a hundred each, by `tests/repeating.py`.
const SUMS: [u32; 20] = [
    1_099_962_136,
    1_831_591_085,
    763_301_077,
    2_075_366_109,
    1_416_682_573,
    1_109_429_769,
    168_747_640,
    278_964_695,
    2_137_771_104,
    87_972_649,
    777_054_165,
    1_380_456_719,
    1_712_671_045,
    145_926_725,
    467_864_216,
    1_331_178_671,
    689_087_120,
    54_870_115,
    1_068_316_161,
    1_369_700_048,
];

fn take(rt: &impl Abort, segment: &mut Segment, raw: i32, gain: &Gain) {
    let name = segment.name();
    assert!(rt; name.to < MAX_SAMPLES);
    assert!(rt; name.to - name.from < segment.longest());
    segment.take(raw, gain);
}

fn count(rt: &impl Abort, repeating: &mut Repeating, segment: &Segment) {
    assert!(rt; segment.grid() == repeating.grid());
    repeating.of(segment);
}

// These cycles in this order, and no others.
fn assert_cycles(rt: &impl Abort, repeating: &Repeating, expected: &[(u16, u16, u64)]) {
    let (mut lo, mut hi) = (0, 0);
    for &(low, high, n) in expected {
        let cell = Cell {
            lo: low,
            hi: high,
            n,
        };
        assert_eq!(rt; repeating.next(lo, hi), Some(cell));
        assert_eq!(rt; repeating.cycles(low, high), n);
        assert!(rt; high < 1024);
        (lo, hi) = (low, high + 1);
    }
    assert_eq!(rt; repeating.next(lo, hi), None);
}

#[test]
fn counts_by_the_standard(rt: HostRuntime) -> Result<(), Fail> {
    let grid = Grid::new(16, 2, -8000, 8)?;
    let gain = Gain::new(1000, 1, 0)?;
    let mut repeating = Repeating::new(rt.alloc(), &grid)?;
    for &(raws, expected) in ROWS {
        let mut segment = Segment::new(rt.alloc(), &grid, 0, 3, 16)?;
        for &raw in raws {
            take(&rt, &mut segment, raw, &gain);
        }
        count(&rt, &mut repeating, &segment);
        assert_cycles(&rt, &repeating, expected);
    }
    Ok(())
}

// The fewest classes, and the most.
#[test]
fn counts_over_the_fewest_and_the_most_classes(rt: HostRuntime) -> Result<(), Fail> {
    for (classes, width, top, raw) in [(2, 2000, 1, 2000), (1024, 1, 1023, 1023)] {
        let grid = Grid::new(classes, width, 0, 1)?;
        let gain = Gain::new(500, 1, 0)?;
        let mut segment = Segment::new(rt.alloc(), &grid, 0, 0, 8)?;
        for raw in [0, raw, 0] {
            take(&rt, &mut segment, raw, &gain);
        }
        let mut repeating = Repeating::new(rt.alloc(), &grid)?;
        count(&rt, &mut repeating, &segment);
        assert_cycles(&rt, &repeating, &[(0, top, 1)]);
    }
    Ok(())
}

// The next number of a plain generator.
fn draw(seed: u32) -> u32 {
    ((u64::from(seed) * 1_103_515_245 + 12_345) % (1 << 31)) as u32
}

// Makes a history of fewer than 50 samples, and gives the seed of the next one.
fn make(rt: &impl Abort, segment: &mut Segment, gain: &Gain, trial: u32, mut seed: u32) -> u32 {
    let levels = 2 + (trial % 15) as u16;
    segment.clear(0, 0);
    for _ in 0..trial % 50 {
        seed = draw(seed);
        let level = (seed / 65_536) as u16 % levels;
        take(rt, segment, i32::from(level) - 8, gain);
    }
    seed
}

fn mixed(sum: u32, number: u64) -> u32 {
    ((u64::from(sum) * 1_000_003 + number % 1_000) % (1 << 31)) as u32
}

// Mixes all cycles into the sum.
fn add_cycles(rt: &impl Abort, repeating: &Repeating, mut sum: u32) -> u32 {
    let mut found = repeating.next(0, 0);
    for _ in 0..120 {
        if let Some(cell) = found {
            assert!(rt; cell.lo < 16 && cell.hi < 16);
            sum = mixed(sum, u64::from(16 * cell.lo + cell.hi));
            sum = mixed(sum, cell.n);
            found = repeating.next(cell.lo, cell.hi + 1);
        }
    }
    sum
}

#[test]
fn counts_two_thousand_histories(rt: HostRuntime) -> Result<(), Fail> {
    let grid = Grid::new(16, 2, -8000, 8)?;
    let gain = Gain::new(1000, 1, 0)?;
    let mut segment = Segment::new(rt.alloc(), &grid, 0, 0, 50)?;
    let mut repeating = Repeating::new(rt.alloc(), &grid)?;
    let mut seed = 20;
    for hundred in 0..20 {
        let mut sum = 0;
        for trial in 100 * hundred..100 * hundred + 100 {
            seed = make(&rt, &mut segment, &gain, trial, seed);
            count(&rt, &mut repeating, &segment);
            sum = add_cycles(&rt, &repeating, sum);
        }
        assert_eq!(rt; sum, SUMS[hundred as usize]);
    }
    Ok(())
}
