use csv_recording::{ColumnFault, Samples, column};
use std::process::Abort;
use std::test::Fail;

const MISSING: i32 = i32::MIN;

/// What a column gives, to compare with.
type Wanted<'a> = Result<&'a [i32], ColumnFault>;

const TABLE: &str = "t,G1,G2\n0,5,-2\n1,6,\n2,7, +1\n";

fn is_wanted(given: &Result<Samples, ColumnFault>, wanted: &Wanted) -> bool {
    match (given, wanted) {
        (Ok(samples), Ok(wanted)) => samples.as_slice() == *wanted,
        (Err(fault), Err(wanted)) => fault == wanted,
        _ => false,
    }
}

// A text, the name of a column, and what it gives.
fn check<R: Abort + AllocGlobal>(rt: &R, table: &[(&[u8], &[u8], Wanted)]) -> Result<(), Fail> {
    for (index, (text, name, wanted)) in table.iter().enumerate() {
        let given = column(rt.alloc(), *text, *name);
        assert!(rt;
            is_wanted(&given, wanted),
            "line {index} of the table gives {given:?}"
        );
    }
    Ok(())
}

// Lines behind the table, the name of a column, and what it gives.
#[test]
fn columns_of_a_table(rt: HostRuntime) -> Result<(), Fail> {
    let table: [(&str, &str, Wanted); 6] = [
        ("", "G2", Ok(&[-2, MISSING, 1])),
        ("", "G1", Ok(&[5, 6, 7])),
        ("", "G3", Err(ColumnFault::NoColumn)),
        (
            "3,8\n",
            "G2",
            Err(ColumnFault::ShortRow { row: 3, fields: 2 }),
        ),
        ("3,8,1.5\n", "G2", Err(ColumnFault::Cell { row: 3 })),
        ("3,8,4,9\n", "G2", Ok(&[-2, MISSING, 1, 4])),
    ];
    for (lines, name, wanted) in table {
        let text = format!(in rt.alloc(); "{TABLE}{lines}")?;
        let given = column(rt.alloc(), text.as_bytes(), name.as_bytes());
        assert!(rt;
            is_wanted(&given, &wanted),
            "{lines:?}, {name} gives {given:?}"
        );
    }
    Ok(())
}

// A cell, and its sample, or none where it is refused.
const CELLS: &[(&str, Option<i32>)] = &[
    ("", Some(MISSING)),
    (" ", Some(MISSING)),
    (" \t ", Some(MISSING)),
    ("NaN", Some(MISSING)),
    ("\tNaN ", Some(MISSING)),
    ("nan", None),
    ("-NaN", None),
    ("NaN1", None),
    ("Na", None),
    ("0", Some(0)),
    ("-0", Some(0)),
    ("+5", Some(5)),
    (" 5\t", Some(5)),
    ("\t-5", Some(-5)),
    ("5 6", None),
    ("- 5", None),
    ("1e3", None),
    ("1.5", None),
    ("0x5", None),
    ("a", None),
    ("/", None),
    (":", None),
    ("+", None),
    ("-", None),
    ("+-1", None),
    ("--1", None),
    ("++1", None),
    ("5-", None),
    ("0000000001", Some(1)),
    ("-0000000001", Some(-1)),
    ("00000000001", None),
    ("+00000000001", None),
    ("2147483647", Some(2147483647)),
    ("-2147483647", Some(-2147483647)),
    ("2147483648", None),
    ("-2147483648", None),
    ("9999999999", None),
    ("4294967296", None),
    ("99999999999999999999999999", None),
    ("\u{b}5", None),
    ("\u{a0}5", None),
];

#[test]
fn cells(rt: HostRuntime) -> Result<(), Fail> {
    for &(cell, sample) in CELLS {
        let text = format!(in rt.alloc(); "t,n\n0,{cell}\n")?;
        let given = column(rt.alloc(), text.as_bytes(), b"n").map(|samples| samples
            .first()
            .copied());
        let wanted = match sample {
            Some(sample) => Ok(Some(sample)),
            None => Err(ColumnFault::Cell { row: 0 }),
        };
        assert_eq!(rt; given, wanted, "{cell:?}");
    }
    Ok(())
}

#[test]
fn names(rt: HostRuntime) -> Result<(), Fail> {
    check(
        &rt,
        &[
            (b"", b"G2", Err(ColumnFault::NoColumn)),
            (b"\n\n\r\n\r", b"G2", Err(ColumnFault::NoColumn)),
            (b"\n\n", b"", Err(ColumnFault::NoColumn)),
            (b"G2", b"G2", Ok(&[])),
            (b"\n\nG2\n", b"G2", Ok(&[])),
            (b"G2,x,G2\n1,2,3\n", b"G2", Ok(&[1])),
            (b"a,,b\n1,2,3\n", b"", Ok(&[2])),
            (b"g2\n1\n", b"G2", Err(ColumnFault::NoColumn)),
            (b" G2\n1\n", b"G2", Err(ColumnFault::NoColumn)),
            (b"G2x,xG2\n1,1\n", b"G2", Err(ColumnFault::NoColumn)),
            (b"\"a,\"\"b\"\"\",c\n4,5\n", b"a,\"b\"", Ok(&[4])),
            (b"a\0,b\n7,8\n", b"a\0", Ok(&[7])),
            (b"\xff,b\n7,8\n", b"\xff", Ok(&[7])),
            (b"\xef\xbb\xbfG2,b\n1,2\n", b"G2", Ok(&[1])),
            (b"\xef\xbb\xbf\"G2\",b\n1,2\n", b"G2", Ok(&[1])),
            (
                b"a,\xef\xbb\xbfG2\n1,2\n",
                b"G2",
                Err(ColumnFault::NoColumn),
            ),
        ],
    )
}

#[test]
fn rows(rt: HostRuntime) -> Result<(), Fail> {
    check(
        &rt,
        &[
            (b"G2\n1\n2", b"G2", Ok(&[1, 2])),
            (b"G2\n\n1\n\r\n\n2\n\n", b"G2", Ok(&[1, 2])),
            (b"G2\n\n1\n\nx\n", b"G2", Err(ColumnFault::Cell { row: 1 })),
            (b"G2\n \n\"\"\n", b"G2", Ok(&[MISSING, MISSING])),
            (b"G2\n\" 5 \"\n", b"G2", Ok(&[5])),
            (b"G2,b\r\n1,2\r\n3,4\r\n", b"b", Ok(&[2, 4])),
            (b"b,G2\r1,2\r3,4", b"G2", Ok(&[2, 4])),
            (b"G2,b\n1,\"2\n3,4\n", b"G2", Ok(&[1])),
            (
                b"G2,b\n1,\"2\n3,4\n",
                b"b",
                Err(ColumnFault::Cell { row: 0 }),
            ),
            (b"G2,b\n5\n1,2\n", b"G2", Ok(&[5, 1])),
            (
                b"G2,b\n5\nx,2\n",
                b"b",
                Err(ColumnFault::ShortRow { row: 0, fields: 1 }),
            ),
            (
                b"G2,b\nx,2\n5\n",
                b"b",
                Err(ColumnFault::ShortRow { row: 1, fields: 1 }),
            ),
            (b"G2,b\nx,2\n5\n", b"G2", Err(ColumnFault::Cell { row: 0 })),
            (b"G2\n1\0\n", b"G2", Err(ColumnFault::Cell { row: 0 })),
            (b"G2,b\n1,\xff\xfe\n", b"G2", Ok(&[1])),
            (b"G2\n1\n\xff\n", b"G2", Err(ColumnFault::Cell { row: 1 })),
            (
                b"G2\n1\n2 \xc2\xa0\n",
                b"G2",
                Err(ColumnFault::Cell { row: 1 }),
            ),
        ],
    )
}
