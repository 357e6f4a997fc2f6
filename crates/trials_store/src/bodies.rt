use calibration::{Gain, Grid};
use segment::Segment;
use std::alloc::{AllocError, Global};
use std::process::Abort;
use std::test::Fail;
use store_bytes::segment_bytes::{BytesFault, Layout, decode, encode, max_body};

// The raw values of the levels 8 13 8 13.
const LEVELS: &[i32] = &[0, 5, 0, 5];

// The body of these levels of gauge 0 from 0, in layout one.
const VECTOR: [u8; 158] = [
    0, 0, 0, 0, 0, 0, 0, 0, 0, 0, 0, 0, 0, 0, 0, 0, 0, 4, // gauge, from, to
    0, 0, 0, 0, 0, 0, 0, 4, 0, 0, 0, 0, 0, 0, 0, 0, 0, 0, 0, 0, 0, 0, 0, 0, // readings
    0, 0, 0, 0, 0, 0, 0, 4, 0, 8, 0, 13, 0, 8, 0, 13, // ends
    0, 2, 0, 8, 0, 13, // residue
    0, 0, 0, 1, 0, 8, 0, 13, 0, 0, 0, 0, 0, 0, 0, 1, // cells
    0, 5, 0, 9, 0, 0, 0, 0, 0, 0, 0, 2, 0, 10, 0, 0, 0, 0, 0, 0, 0, 2, // crossings
    0, 11, 0, 0, 0, 0, 0, 0, 0, 2, 0, 12, 0, 0, 0, 0, 0, 0, 0, 2, //
    0, 13, 0, 0, 0, 0, 0, 0, 0, 2, //
    0, 1, 0, 13, 0, 0, 0, 0, 0, 0, 0, 1, // peaks
    0, 0, // valleys
    0, 1, 0, 5, 0, 0, 0, 0, 0, 0, 0, 3, // ranges
];

// List 0 of the same body in layout two.
const ROWS: [u8; 16] = [0, 1, 0, 8, 0, 1, 0, 13, 0, 0, 0, 0, 0, 0, 0, 1];

// 16 classes of 1 N/mm² from -8 N/mm²: the level of a raw value is eight more.
fn common() -> Result<(Grid, Gain), Fail> {
    Ok((Grid::new(16, 2, -8000, 8)?, Gain::new(1000, 1, 0)?))
}

fn take(rt: &impl Abort, segment: &mut Segment, raws: &[i32], gain: &Gain) {
    for raw in raws {
        let name = segment.name();
        assert!(rt; name.to < 1000 && name.from <= name.to);
        assert!(rt; name.to - name.from < segment.longest());
        segment.take(*raw, gain);
    }
}

fn body<'a>(rt: &impl Abort, layout: Layout, segment: &Segment, buf: &'a mut [u8]) -> &'a [u8] {
    let classes = segment.grid().classes();
    assert!(rt; classes <= 128 && max_body(layout, classes) <= buf.len());
    let n = encode(layout, segment, buf);
    assert!(rt; n <= buf.len());
    &buf[..n]
}

fn read(
    rt: &impl Abort,
    alloc: Global,
    layout: Layout,
    bytes: &[u8],
) -> Result<Result<Segment, BytesFault>, Fail> {
    let (grid, _gain) = common()?;
    assert!(rt; grid.classes() <= 128);
    Ok(decode(alloc, layout, &grid, bytes))
}

fn fault(
    rt: &impl Abort,
    alloc: Global,
    layout: Layout,
    bytes: &[u8],
) -> Result<Option<BytesFault>, Fail> {
    Ok(read(rt, alloc, layout, bytes)?.err())
}

// A segment of four samples of gauge 0, from 0 on.
fn taken(rt: &impl Abort, alloc: Global, raws: &[i32]) -> Result<Segment, Fail> {
    let (grid, gain) = common()?;
    let mut segment = Segment::new(alloc, &grid, 0, 0, 4)?;
    take(rt, &mut segment, raws, &gain);
    Ok(segment)
}

fn assert_written(
    rt: &impl Abort,
    alloc: Global,
    layout: Layout,
    raws: &[i32],
    expected: &[u8],
) -> Result<(), Fail> {
    let segment = taken(rt, alloc, raws)?;
    let mut buf = vec![in alloc; 7; 3000]?;
    assert_eq!(rt; body(rt, layout, &segment, &mut buf), expected);
    Ok(())
}

fn assert_read(rt: &impl Abort, alloc: Global, layout: Layout, bytes: &[u8]) -> Result<(), Fail> {
    let segment = read(rt, alloc, layout, bytes)??;
    let name = segment.name();
    assert_eq!(rt; (name.gauge, name.from, name.to), (0, 0, 4));
    assert_eq!(rt; (segment.longest(), segment.cycles(8, 13)), (4, 1));
    Ok(())
}

// The vector with its cells in rows.
fn in_rows() -> [u8; 158] {
    let mut bytes = VECTOR;
    bytes[64..80].copy_from_slice(&ROWS);
    bytes
}

#[test]
fn the_vector(rt: HostRuntime) -> Result<(), Fail> {
    assert_written(&rt, rt.alloc(), Layout::One, LEVELS, &VECTOR)?;
    assert_read(&rt, rt.alloc(), Layout::One, &VECTOR)
}

#[test]
fn the_vector_in_rows(rt: HostRuntime) -> Result<(), Fail> {
    assert_written(&rt, rt.alloc(), Layout::Two, LEVELS, &in_rows())?;
    assert_read(&rt, rt.alloc(), Layout::Two, &in_rows())
}

// A byte of the vector is changed, and the fault that this makes.
const CHANGES: &[(usize, u8, BytesFault)] = &[
    (79, 0, BytesFault::Order { list: 0, index: 0 }),
    (93, 9, BytesFault::Order { list: 1, index: 1 }),
    (135, 7, BytesFault::Order { list: 2, index: 0 }),
    (149, 0, BytesFault::Order { list: 4, index: 0 }),
    (12, 1, BytesFault::Sum { rule: 1 }),
    (17, 3, BytesFault::Sum { rule: 2 }),
    (25, 5, BytesFault::Sum { rule: 2 }),
    (49, 5, BytesFault::Sum { rule: 3 }),
    (49, 3, BytesFault::Sum { rule: 4 }),
    (79, 2, BytesFault::Sum { rule: 4 }),
    (91, 4, BytesFault::Sum { rule: 5 }),
    (143, 3, BytesFault::Sum { rule: 6 }),
    (157, 4, BytesFault::Sum { rule: 7 }),
    (149, 6, BytesFault::Sum { rule: 8 }),
    (63, 8, BytesFault::Residue { rule: 1 }),
    (63, 14, BytesFault::Residue { rule: 3 }),
];

fn changed(rt: &impl Abort, place: usize, byte: u8) -> [u8; 158] {
    let mut bytes = VECTOR;
    assert!(rt; place < 158);
    bytes[place] = byte;
    bytes
}

#[test]
fn one_byte_changed(rt: HostRuntime) -> Result<(), Fail> {
    for (place, byte, expected) in CHANGES {
        let bytes = changed(&rt, *place, *byte);
        let found = fault(&rt, rt.alloc(), Layout::One, &bytes)?;
        assert_eq!(rt; found, Some(*expected), "byte {place}");
    }
    Ok(())
}

// The body of no samples is 72 zeros, and 70 in rows; one byte less, and one more.
const ZEROS: &[(Layout, usize, Option<BytesFault>)] = &[
    (
        Layout::One,
        71,
        Some(BytesFault::Short { need: 72, have: 71 }),
    ),
    (Layout::One, 72, None),
    (Layout::One, 73, Some(BytesFault::Trailing { rest: 1 })),
    (
        Layout::Two,
        69,
        Some(BytesFault::Short { need: 70, have: 69 }),
    ),
    (Layout::Two, 70, None),
    (Layout::Two, 71, Some(BytesFault::Trailing { rest: 1 })),
];

#[test]
fn short_and_trailing(rt: HostRuntime) -> Result<(), Fail> {
    for (layout, bytes, expected) in ZEROS {
        assert!(rt; *bytes <= 73);
        let found = fault(&rt, rt.alloc(), *layout, &[0; 73][..*bytes])?;
        assert_eq!(rt; found, *expected, "{bytes} bytes");
    }
    Ok(())
}

fn assert_no_samples(rt: &impl Abort, segment: &Segment) {
    let name = segment.name();
    assert_eq!(rt; (name.gauge, name.from, name.to), (0, 0, 0));
    let readings = [segment.used(), segment.missing(), segment.refused()];
    assert_eq!(rt; readings, [0, 0, 0]);
    assert_eq!(rt; (segment.ends().points, segment.residue().len()), (0, 0));
    assert_eq!(rt; segment.next_cycle(0, 0), None);
}

fn assert_zeros_read(
    rt: &impl Abort,
    alloc: Global,
    layout: Layout,
    zeros: &[u8],
) -> Result<(), Fail> {
    let found = read(rt, alloc, layout, zeros)??;
    assert_no_samples(rt, &found);
    Ok(())
}

#[test]
fn the_body_of_no_samples(rt: HostRuntime) -> Result<(), Fail> {
    for (layout, bytes) in [(Layout::One, 72usize), (Layout::Two, 70)] {
        assert!(rt; bytes <= 73);
        let zeros = &[0; 73][..bytes];
        assert_written(&rt, rt.alloc(), layout, &[], zeros)?;
        assert_zeros_read(&rt, rt.alloc(), layout, zeros)?;
    }
    Ok(())
}

// A second row, behind that of the vector: rows that do not ascend, and an empty one.
const SECOND_ROWS: &[(&[u8], BytesFault)] = &[
    (
        &[0, 8, 0, 1, 0, 13, 0, 0, 0, 0, 0, 0, 0, 1],
        BytesFault::Order { list: 0, index: 1 },
    ),
    (
        &[0, 7, 0, 1, 0, 13, 0, 0, 0, 0, 0, 0, 0, 1],
        BytesFault::Order { list: 0, index: 1 },
    ),
    (&[0, 9, 0, 0], BytesFault::Order { list: 0, index: 1 }),
    (
        &[0, 9, 0, 1, 0, 13, 0, 0, 0, 0, 0, 0, 0, 1],
        BytesFault::Sum { rule: 4 },
    ),
];

fn with_second_row(alloc: Global, row: &[u8]) -> Result<Vec<u8>, AllocError> {
    let mut bytes = Vec::new(alloc);
    for part in [&VECTOR[..64], &[0, 2], &ROWS[2..], row, &VECTOR[80..]] {
        bytes.extend_from_slice(part)?;
    }
    Ok(bytes)
}

#[test]
fn rows_out_of_order(rt: HostRuntime) -> Result<(), Fail> {
    for (row, expected) in SECOND_ROWS {
        let bytes = with_second_row(rt.alloc(), row)?;
        let found = fault(&rt, rt.alloc(), Layout::Two, &bytes)?;
        assert_eq!(rt; found, Some(*expected));
    }
    Ok(())
}
