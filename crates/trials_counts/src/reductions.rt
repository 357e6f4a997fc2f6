use four_point::Reducer;
use std::alloc::AllocError;
use tally::Tally;

// Levels, the cycles (lower level, higher level, count) and the residue. The first is the history
// of the standard's own example. The results are those of a small program of its own, which deletes
// anywhere in the list.
const HISTORIES: &[(&[u16], &[(u16, u16, u64)], &[u16])] = &[
    (
        &[6, 9, 5, 13, 7, 11, 4, 12, 6],
        &[(7, 11, 1)],
        &[6, 9, 5, 13, 4, 12, 6],
    ),
    (&[8, 13, 8, 13], &[(8, 13, 1)], &[8, 13]),
    (&[10, 10, 10], &[], &[10]),
    (&[8, 13, 13, 13, 8], &[], &[8, 13, 8]),
    (&[8, 13, 11, 9, 14], &[(9, 13, 1)], &[8, 14]),
    (
        &[0, 15, 3, 9, 5, 7, 6, 6, 10, 2, 15],
        &[(6, 7, 1), (5, 9, 1), (3, 10, 1), (2, 15, 1)],
        &[0, 15],
    ),
];

#[test]
fn counts_cycles_and_keeps_the_residue(rt: HostRuntime) -> Result<(), AllocError> {
    for &(levels, cycles, residue) in HISTORIES {
        let mut tally = Tally::new(rt.alloc(), 16, 5)?;
        let mut reducer = Reducer::new(rt.alloc(), 16)?;
        for &level in levels {
            assert!(rt; level < reducer.classes());
            assert!(rt; reducer.classes() == tally.classes());
            assert!(rt; tally.total() < 100);
            assert!(rt; reducer.residue().len() < 100);
            let taken = 2 * tally.cells() as usize + reducer.residue().len();
            assert!(rt; taken <= 2 * tally.room() as usize);
            reducer.push(level, &mut tally);
        }
        assert_eq!(rt; reducer.residue(), residue);
        assert_eq!(rt; tally.total(), cycles.len() as u64, "over {levels:?}");
        for &(lo, hi, n) in cycles {
            assert_eq!(rt; tally.get(lo, hi), n, "of {lo} and {hi}");
        }
        reducer.clear();
        assert_eq!(rt; reducer.residue().len(), 0);
    }
    Ok(())
}

const RESIDUE: &[u16] = &[6, 9, 5, 13, 4, 12, 6];

// A plateau, a level on the way, an end that is no point, a cycle, a cycle at a tie, and a level
// outside the classes.
const REFUSED: &[&[u16]] = &[
    &[5, 5],
    &[1, 2, 3],
    &[3, 7, 4, 4],
    &[0, 9, 3, 10],
    &[8, 13, 8, 13],
    &[3, 16],
];

#[test]
fn a_residue_is_loaded_and_pushed_onto(rt: HostRuntime) -> Result<(), AllocError> {
    let mut reducer = Reducer::new(rt.alloc(), 16)?;
    assert!(rt; reducer.load(RESIDUE));
    assert_eq!(rt; reducer.residue(), RESIDUE);
    for &list in REFUSED {
        assert!(rt; !reducer.load(list), "of {list:?}");
        assert_eq!(rt; reducer.residue(), RESIDUE);
    }
    assert!(rt; !reducer.load(&[0; 33]));
    assert!(rt; reducer.load(&[8, 13, 8]));

    let mut tally = Tally::new(rt.alloc(), 16, 5)?;
    assert!(rt; reducer.classes() == 16 && reducer.residue().len() < 8);
    reducer.push(13, &mut tally);
    assert_eq!(rt; reducer.residue(), [8, 13].as_slice());
    assert_eq!(rt; tally.get(8, 13), 1);
    assert!(rt; reducer.load(&[]));
    assert_eq!(rt; reducer.residue().len(), 0);
    Ok(())
}
