ghost use Rattle.std.specs.Prelude.{◌≤◌, length};
ghost use Rattle.calibration.specs.declared.limits.TheConstants.{MAX_NAME_BYTES};

use calibration::{Classifier, Gain, Grid};
use damage::exact_frac::Frac;
use repeating::Repeating;
use report::{Page, detail_text, gauge_text, repeat_text, table_text};
use segment::Segment;
use std::alloc::Global;
use std::process::Abort;
use std::test::Fail;

// The standard's own example, over classes of 1 N/mm².
#[test]
fn a_table(rt: HostRuntime) -> Result<(), Fail> {
    let alloc = rt.alloc();
    let grid = Grid::new(10, 2, 0, 5).expect(&rt, "the grid of the example");
    let mut page = Page::new(alloc, 10)?;
    table_text(
        &mut page,
        &grid,
        [9, 9, 0, 0],
        &[0, 0, 0, 1, 3, 0, 1, 0, 2, 1],
    );
    let expected =
        "samples 9 used 9 missing 0 refused 0\nrainflow\n9.0 0.5\n8.0 1.0\n6.0 0.5\n4.0 1.5\n3.0 0.5\n";
    assert_eq!(rt; page.bytes(), expected.as_bytes());

    // A page is written anew. A class of half an N/mm².
    let grid = Grid::new(3, 1, -500, 1).expect(&rt, "a small grid");
    table_text(&mut page, &grid, [4, 3, 0, 1], &[0, 2, 0]);
    let expected = "samples 4 used 3 missing 0 refused 1\nrainflow\n0.5 1.0\n";
    assert_eq!(rt; page.bytes(), expected.as_bytes());
    Ok(())
}

// Fractions whose decimals were worked out by hand: they are rounded up.
#[test]
fn details(rt: HostRuntime) -> Result<(), Fail> {
    let mut page = Page::new(rt.alloc(), 2)?;
    let cases = [
        (0, 0, 7, "detail weld-1 north 0 0/7 0.000000000\n"),
        (0, 1, 7, "detail weld-1 north 0 1/7 0.142857143\n"),
        (
            0,
            1,
            10_000_000_000,
            "detail weld-1 north 0 1/10000000000 0.000000001\n",
        ),
        (
            2,
            405_224,
            1_000_000,
            "detail weld-1 north 2 405224/1000000 2.405224000\n",
        ),
        (
            3,
            9_999_999_999,
            10_000_000_000,
            "detail weld-1 north 3 9999999999/10000000000 4.000000000\n",
        ),
    ];
    for (wholes, parts, den, expected) in cases {
        let mut damage = Frac::zero(den);
        damage.add_times(parts, 1);
        damage.whole += wholes;
        detail_text(&mut page, "weld-1", "north", &damage);
        assert_eq!(rt; page.bytes(), expected.as_bytes());
    }
    Ok(())
}

const EXAMPLE: &[i32] = &[-2, 1, -3, 5, -1, 3, -4, 4, -2];

const EXAMPLE_TEXT: &str = "\
gauge north
samples 9 used 9 missing 0 refused 0
rainflow
9.0 0.5
8.0 1.0
6.0 0.5
4.0 1.5
3.0 0.5
matrix
4 12 0.5
4 13 0.5
5 9 0.5
5 13 0.5
6 9 0.5
6 12 0.5
7 11 1.0
crossings
5 1
6 2
7 3
8 4
9 4
10 3
11 3
12 2
13 1
peaks
9 1
11 1
12 1
13 1
valleys
4 1
5 1
7 1
ranges
8.0 1.0
7.0 0.5
6.0 1.0
4.0 1.0
3.0 0.5
";

const EMPTY_TEXT: &str = "\
gauge A
samples 1 used 0 missing 1 refused 0
rainflow
matrix
crossings
peaks
valleys
ranges
";

// What these samples come to, over 16 classes of 1 N/mm² from -8 N/mm².
fn counted(rt: &impl Abort, alloc: Global, raws: &[i32]) -> Result<Segment, Fail> {
    let grid = Grid::new(16, 2, -8000, 8)?;
    let gain = Gain::new(1000, 1, 0)?;
    assert!(rt; raws.len() <= 9);
    let mut segment = Segment::new(alloc, &grid, 0, 0, 100)?;
    segment.count_block(raws, &Classifier::new(&gain, &grid), &mut [0; 9]);
    Ok(segment)
}

// The text of a gauge with these samples.
fn check_gauge(
    rt: &impl Abort,
    alloc: Global,
    name: &str,
    raws: &[i32],
    expected: &str,
) -> Result<(), Fail>
    requires name { length name.now ≤ MAX_NAME_BYTES }
{
    let segment = counted(rt, alloc, raws)?;
    assert!(rt; segment.grid().classes() == 16);
    let mut page = Page::new(alloc, 16)?;
    gauge_text(&mut page, name, &segment);
    assert_eq!(rt; page.bytes(), expected.as_bytes());
    Ok(())
}

// The standard's own example, and a gauge without a reading: every section has its heading.
#[test]
fn gauges(rt: HostRuntime) -> Result<(), Fail> {
    check_gauge(&rt, rt.alloc(), "north", EXAMPLE, EXAMPLE_TEXT)?;
    check_gauge(&rt, rt.alloc(), "A", &[i32::MIN], EMPTY_TEXT)
}

// What they come to where their history repeats.
fn repeating(rt: &impl Abort, alloc: Global, raws: &[i32]) -> Result<Repeating, Fail> {
    let segment = counted(rt, alloc, raws)?;
    let mut count = Repeating::new(alloc, &segment.grid())?;
    count.of(&segment);
    Ok(count)
}

// The text of a gauge with these samples, where its history repeats.
fn check_repeat(
    rt: &impl Abort,
    alloc: Global,
    name: &str,
    raws: &[i32],
    expected: &str,
) -> Result<(), Fail>
    requires name { length name.now ≤ MAX_NAME_BYTES }
{
    let count = repeating(rt, alloc, raws)?;
    assert!(rt; count.grid().classes() == 16);
    let mut page = Page::new(alloc, 16)?;
    repeat_text(&mut page, name, &count);
    assert_eq!(rt; page.bytes(), expected.as_bytes());
    Ok(())
}

// The standard's own example, half a cycle that becomes a whole one, and a plateau.
#[test]
fn repeating_gauges(rt: HostRuntime) -> Result<(), Fail> {
    let alloc = rt.alloc();
    let expected = "repeat G1\n9.0 1.0\n7.0 1.0\n4.0 1.0\n3.0 1.0\n";
    check_repeat(&rt, alloc, "G1", EXAMPLE, expected)?;
    check_repeat(&rt, alloc, "north", &[0, 5], "repeat north\n5.0 1.0\n")?;
    check_repeat(&rt, alloc, "A", &[2, 2, 2], "repeat A\n")
}
