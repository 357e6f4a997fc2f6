use std::test::Fail;
use turning_points::{Ends, Turner, ends_of, join_ends, keep_points, no_ends, put_behind};

// Levels and their points, found by hand from the rule.
const HISTORIES: &[(&[u16], &[u16])] = &[
    (&[], &[]),
    (&[10, 10, 10], &[10]),
    (&[7, 7, 9, 9], &[7, 9]),
    (&[5, 6, 8, 9], &[5, 9]),
    (&[8, 13, 13, 8], &[8, 13, 8]),
    (&[8, 13, 11, 9, 14], &[8, 13, 9, 14]),
    (
        &[6, 9, 5, 13, 7, 11, 4, 12, 6],
        &[6, 9, 5, 13, 7, 11, 4, 12, 6],
    ),
    (&[3, 3, 1, 1, 2, 4, 4, 4, 0, 0], &[3, 1, 4, 0]),
];

#[test]
fn finds_the_points(rt: HostRuntime) -> Result<(), Fail> {
    for &(levels, points) in HISTORIES {
        let mut turner = Turner::new();
        let mut given = Vec::with_capacity(rt.alloc(), levels.len())?;
        for &level in levels {
            if let Some(point) = turner.push(level) {
                given.push(point)?;
            }
        }
        if let Some(point) = turner.finish() {
            given.push(point)?;
        }
        assert_eq!(rt; given.as_slice(), points, "one at a time");

        let mut kept = levels.to_vec(rt.alloc())?;
        let count = keep_points(&mut kept);
        assert_eq!(rt; &kept[..count], points, "in place");
    }
    Ok(())
}

#[test]
fn finds_the_points_of_pieces(rt: HostRuntime) -> Result<(), Fail> {
    for &(levels, points) in HISTORIES {
        for cut in 0..=levels.len() {
            let mut turner = Turner::new();
            let mut front = levels[..cut].to_vec(rt.alloc())?;
            let mut back = levels[cut..].to_vec(rt.alloc())?;
            let first = turner.keep_decided(&mut front);
            let second = turner.keep_decided(&mut back);
            let mut given = front[..first].to_vec(rt.alloc())?;
            given.extend_from_slice(&back[..second])?;
            if let Some(point) = turner.finish() {
                given.push(point)?;
            }
            assert_eq!(rt; given.as_slice(), points, "cut at {cut}");
        }
    }
    Ok(())
}

// The ends of the points of a history.
fn ends_in(levels: &mut [u16]) -> Ends {
    let count = keep_points(levels);
    ends_of(&levels[..count])
}

#[test]
fn ends_of_two_parts_are_those_of_the_whole(rt: HostRuntime) -> Result<(), Fail> {
    for &(levels, _) in HISTORIES {
        let whole = ends_in(&mut levels.to_vec(rt.alloc())?);
        for cut in 0..=levels.len() {
            let left = ends_in(&mut levels[..cut].to_vec(rt.alloc())?);
            let right = ends_in(&mut levels[cut..].to_vec(rt.alloc())?);
            assert!(rt; left.points <= 16);
            assert!(rt; right.points <= 16);
            assert_eq!(rt; join_ends(&left, &right), whole, "cut at {cut}");
        }
    }
    Ok(())
}

#[test]
fn ends_of_few_points(rt: HostRuntime) -> Result<(), Fail> {
    let table = [
        (0, [0, 0], [0, 0], [].as_slice()),
        (1, [7, 0], [0, 7], [7].as_slice()),
        (2, [7, 9], [7, 9], [7, 9].as_slice()),
        (4, [8, 13], [9, 14], [8, 13, 9, 14].as_slice()),
    ];
    for (points, first, last, list) in table {
        assert_eq!(rt;
            ends_of(list),
            Ends {
                points,
                first,
                last
            }
        );
        let mut pushed = no_ends();
        for &level in list {
            assert!(rt; pushed.points <= 16);
            pushed = put_behind(level, &pushed);
        }
        assert_eq!(rt; pushed, ends_of(list));
    }
    Ok(())
}
