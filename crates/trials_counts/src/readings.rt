use calibration::{Classifier, Gain, GainFault, Grid, GridFault, Reading, level};
use std::test::Fail;

// Gain, grid, raw value and reading. Beside five plain rows these are the raw values next to the
// borders of the first, the second and past the last class, for gains whose quotients are negative
// and inexact there. The readings come from Python, whose `//` rounds down.
#[test]
fn readings_beside_borders(rt: HostRuntime) -> Result<(), Fail> {
    let table = [
        ((1000, 1, 0), (16, 2, -8000), 7, Reading::Level(15)),
        ((1000, 1, 0), (16, 2, -8000), 8, Reading::Refused),
        ((1000, 1, 0), (16, 2, -8000), i32::MIN, Reading::Missing),
        ((1000, 1, 0), (16, 2, -8000), -8, Reading::Level(0)),
        ((1000, 1, 0), (16, 2, -8000), -9, Reading::Refused),
        ((500, 1, 0), (1024, 1, -256000), 511, Reading::Level(1023)),
        ((500, 1, 0), (1024, 1, -256000), 512, Reading::Refused),
        ((500, 1, 0), (1024, 1, -256000), -512, Reading::Level(0)),
        ((500, 1, 0), (1024, 1, -256000), -513, Reading::Refused),
        ((210, 7, -3), (128, 2, -64000), -2134, Reading::Refused),
        ((210, 7, -3), (128, 2, -64000), -2133, Reading::Level(0)),
        ((210, 7, -3), (128, 2, -64000), -2100, Reading::Level(0)),
        ((210, 7, -3), (128, 2, -64000), -2099, Reading::Level(1)),
        ((210, 7, -3), (128, 2, -64000), 2133, Reading::Level(127)),
        ((210, 7, -3), (128, 2, -64000), 2134, Reading::Refused),
        ((-1, 3, 5), (16, 1, -4000), -11985, Reading::Refused),
        ((-1, 3, 5), (16, 1, -4000), -11984, Reading::Level(15)),
        ((-1, 3, 5), (16, 1, -4000), 10515, Reading::Level(1)),
        ((-1, 3, 5), (16, 1, -4000), 10516, Reading::Level(0)),
        ((-1, 3, 5), (16, 1, -4000), 12015, Reading::Level(0)),
        ((-1, 3, 5), (16, 1, -4000), 12016, Reading::Refused),
        (
            (1, 1_000_000, -250),
            (2, 2, -2000),
            -1_750_000_001,
            Reading::Refused,
        ),
        (
            (1, 1_000_000, -250),
            (2, 2, -2000),
            -1_750_000_000,
            Reading::Level(0),
        ),
        (
            (1, 1_000_000, -250),
            (2, 2, -2000),
            -750_000_001,
            Reading::Level(0),
        ),
        (
            (1, 1_000_000, -250),
            (2, 2, -2000),
            -750_000_000,
            Reading::Level(1),
        ),
        (
            (1, 1_000_000, -250),
            (2, 2, -2000),
            249_999_999,
            Reading::Level(1),
        ),
        (
            (1, 1_000_000, -250),
            (2, 2, -2000),
            250_000_000,
            Reading::Refused,
        ),
        (
            (1_000_000_000, 1, 0),
            (128, 15, -1_000_000_000),
            -2,
            Reading::Refused,
        ),
        (
            (1_000_000_000, 1, 0),
            (128, 15, -1_000_000_000),
            -1,
            Reading::Level(0),
        ),
        (
            (1_000_000_000, 1, 0),
            (128, 15, -1_000_000_000),
            0,
            Reading::Refused,
        ),
    ];
    for ((num, den, offset), (classes, w2, low_kpa), raw, reading) in table {
        let gain = Gain::new(num, den, offset)?;
        let grid = Grid::new(classes, w2, low_kpa, 1)?;
        assert_eq!(rt;
            level(&gain, &grid, raw),
            reading,
            "raw {raw} by {num}/{den}"
        );
    }
    Ok(())
}

// A width of 1 N/mm² from -8000 kPa: a raw value r in N/mm² is level r + 8.
#[test]
fn levels_of_a_slice(rt: HostRuntime) -> Result<(), Fail> {
    let classifier = Classifier::new(&Gain::new(1000, 1, 0)?, &Grid::new(16, 2, -8000, 8)?);
    let raws = [
        7,
        i32::MIN,
        8,
        -8,
        -9,
        i32::MAX,
        0,
        i32::MIN + 1,
        i32::MIN,
        3,
    ];
    let mut levels = [77; 12];
    let counts = classifier.levels(&raws, &mut levels);
    assert_eq!(rt; (counts.used, counts.missing, counts.refused), (4, 2, 4));
    assert_eq!(rt; &levels[..4], [15, 0, 8, 11].as_slice());
    Ok(())
}

#[test]
fn limits_of_gains(rt: HostRuntime) {
    let most = 1_000_000_000;
    let table = [
        (most, 1, -most, None),
        (-most, 1_000_000, most, None),
        (most + 1, 0, 0, Some(GainFault::Num)),
        (i64::MIN, 1, 0, Some(GainFault::Num)),
        (0, 0, most + 1, Some(GainFault::Den)),
        (0, 1_000_001, 0, Some(GainFault::Den)),
        (0, 1, most + 1, Some(GainFault::Offset)),
        (0, 1, -most - 1, Some(GainFault::Offset)),
    ];
    for (num, den, offset, fault) in table {
        assert_eq!(rt;
            Gain::new(num, den, offset).err(),
            fault,
            "{num}/{den} and {offset}"
        );
    }
}

#[test]
fn limits_of_grids(rt: HostRuntime) {
    let most = 1_000_000_000;
    let table = [
        (2, 2000, -most, 1, None),
        (128, 15, most, 127, None),
        (1024, 1, 0, 1023, None),
        (1, 0, 0, 0, Some(GridFault::Classes)),
        (1025, 1, 0, 1, Some(GridFault::Classes)),
        (1024, 2, 0, 1, Some(GridFault::Span)),
        (16, 0, most + 1, 1, Some(GridFault::Width)),
        (16, 133, 0, 0, Some(GridFault::Reference)),
        (16, 134, most + 1, 1, Some(GridFault::Span)),
        (2, 2001, 0, 1, Some(GridFault::Span)),
        (16, 1, most + 1, 0, Some(GridFault::Low)),
        (16, 1, -most - 1, 16, Some(GridFault::Low)),
        (16, 1, 0, 16, Some(GridFault::Reference)),
    ];
    for (classes, w2, low_kpa, reference, fault) in table {
        let grid = Grid::new(classes, w2, low_kpa, reference);
        assert_eq!(rt; grid.err(), fault, "{classes} {w2} {low_kpa} {reference}");
    }
}
