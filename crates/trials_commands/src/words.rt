use command_words::{Command, read_words};
use std::test::Fail;

fn words_of(rt: &HostRuntime, line: &str) -> Result<Vec<String>, Fail> {
    let mut words = Vec::new(rt.alloc());
    for word in line.split(' ') {
        words.push(String::from_str(rt.alloc(), word)?)?;
    }
    Ok(words)
}

const BYTES: [u8; 16] = [
    0x01, 0x23, 0x45, 0x67, 0x89, 0xab, 0xcd, 0xef, 0x01, 0x23, 0x45, 0x67, 0x89, 0xab, 0xcd, 0xef,
];

// The words behind `count` or `watch`, and the workers, or none where the line is refused.
const WORKERS: &[(&str, Option<Option<u8>>)] = &[
    ("--workers 2", Some(Some(2))),
    ("--workers=8", Some(Some(8))),
    ("--workers +3", Some(Some(3))),
    ("--workers 03", Some(Some(3))),
    ("--workers 9", None),
    ("--workers 0", None),
    ("--workers -1", None),
    ("--workers", None),
    ("--workers 2 --workers 2", None),
    ("-w 2", None),
    ("--work 2", None),
    ("x", None),
    ("--", Some(None)),
    ("--help", None),
    ("-h", None),
];

#[test]
fn lines_of_count(rt: HostRuntime) -> Result<(), Fail> {
    let words = words_of(&rt, "count")?;
    let count = Command::Count { workers: None };
    assert_eq!(rt; read_words(rt.alloc(), &words)?, Some(count));
    for &(line, workers) in WORKERS {
        let line = format!(in rt.alloc(); "count {line}")?;
        let words = words_of(&rt, line.as_str())?;
        let command = workers.map(|workers| Command::Count { workers });
        assert_eq!(rt; read_words(rt.alloc(), &words)?, command);
    }
    Ok(())
}

#[test]
fn lines_of_watch(rt: HostRuntime) -> Result<(), Fail> {
    let words = words_of(&rt, "watch")?;
    let watch = Command::Watch { workers: None };
    assert_eq!(rt; read_words(rt.alloc(), &words)?, Some(watch));
    for &(line, workers) in WORKERS {
        let line = format!(in rt.alloc(); "watch {line}")?;
        let words = words_of(&rt, line.as_str())?;
        let command = workers.map(|workers| Command::Watch { workers });
        assert_eq!(rt; read_words(rt.alloc(), &words)?, command);
    }
    Ok(())
}

#[test]
fn lines_of_others(rt: HostRuntime) -> Result<(), Fail> {
    let table = [
        ("table t.sgrc", Some(Command::Table { file: "t.sgrc" })),
        ("table -- -x", Some(Command::Table { file: "-x" })),
        ("table -", Some(Command::Table { file: "-" })),
        ("table -x", None),
        ("table", None),
        ("table a b", None),
        ("draw", None),
        ("init", Some(Command::Init)),
        ("init x", None),
        ("report", Some(Command::Report)),
        ("report --workers 2", None),
        ("audit", Some(Command::Audit)),
        ("audit --", Some(Command::Audit)),
        ("audit x", None),
        ("repeat", Some(Command::Repeat)),
        ("repeat --workers 2", None),
        ("repeats", None),
        ("sheet", Some(Command::Sheet)),
        ("sheet x", None),
        (
            "column d.csv G2 0123456789abcdef0123456789abcdef 10000",
            Some(Command::Column {
                file: "d.csv",
                name: "G2",
                id: BYTES,
                period_us: 10000,
            }),
        ),
        (
            "column d.csv -- -2 0123456789abcdef0123456789abcdef 4294967295",
            Some(Command::Column {
                file: "d.csv",
                name: "-2",
                id: BYTES,
                period_us: u32::MAX,
            }),
        ),
        ("column d.csv G2 0123456789ABCDEF0123456789ABCDEF 1", None),
        ("column d.csv G2 0123456789abcdef0123456789abcde 1", None),
        ("column d.csv G2 0123456789abcdef0123456789abcdef0 1", None),
        ("column d.csv G2 0123456789abcdef0123456789abcdeg 1", None),
        (
            "column d.csv G2 0123456789abcdef0123456789abcdef 4294967296",
            None,
        ),
        ("column d.csv G2 0123456789abcdef0123456789abcdef", None),
        ("column d.csv G2 0123456789abcdef0123456789abcdef 1 2", None),
        ("Table t.sgrc", None),
        (
            "demo",
            Some(Command::Demo {
                seed: 0,
                samples: 100000,
                workers: 4,
            }),
        ),
        (
            "demo --samples 5 --seed 9223372036854775807 --workers 1",
            Some(Command::Demo {
                seed: 9223372036854775807,
                samples: 5,
                workers: 1,
            }),
        ),
        ("demo --seed 9223372036854775808", None),
        ("demo --samples 0", None),
    ];
    for (line, command) in table {
        let words = words_of(&rt, line)?;
        assert_eq!(rt; read_words(rt.alloc(), &words)?, command);
    }
    let none = Vec::new(rt.alloc());
    assert_eq!(rt; read_words(rt.alloc(), &none)?, None);
    Ok(())
}

// A line, and where sample 0 stands, where the window begins and where it ends, in nanoseconds, or
// none where the line is refused.
const WINDOWS: &[(&str, Option<(i128, i128, i128)>)] = &[
    (
        "window 2024-01-01T00:00:00Z 1969-12-31T23:59:59.5Z 2024-01-01T00:00:00.000000001Z",
        Some((
            1_704_067_200_000_000_000,
            -500_000_000,
            1_704_067_200_000_000_001,
        )),
    ),
    (
        "window 2024-01-01T01:00:00+01:00 1970-01-01T00:00:00Z 1970-01-01T00:00:00Z",
        Some((1_704_067_200_000_000_000, 0, 0)),
    ),
    (
        "window 1970-01-01T00:00:00Z -- -009999-01-02T01:59:59Z 9999-12-30T22:00:00.999999999Z",
        Some((0, -377_705_023_201_000_000_000, 253_402_207_200_999_999_999)),
    ),
    (
        "window 1970-01-01T00:00:00Z 1970-01-01T00:00:01Z 1970-01-01T00:00:00Z",
        None,
    ),
    (
        "window 1970-01-01T00:00:00Z 1970-01-01T00:00:01Z noon",
        None,
    ),
    (
        "window 1970-01-01T00:00:00Z 1970-01-01T00:00:00Z 9999-12-31T23:59:59Z",
        None,
    ),
    ("window 1970-01-01T00:00:00Z 1970-01-01T00:00:00Z", None),
    ("window 1970-01-01 1970-01-02 1970-01-03", None),
];

#[test]
fn lines_of_window(rt: HostRuntime) -> Result<(), Fail> {
    for &(line, times) in WINDOWS {
        let words = words_of(&rt, line)?;
        let command = times.map(|(start, from, to)| Command::Window { start, from, to });
        assert_eq!(rt; read_words(rt.alloc(), &words)?, command);
    }
    Ok(())
}

#[test]
fn lines_of_compact(rt: HostRuntime) -> Result<(), Fail> {
    let words = words_of(&rt, "compact")?;
    assert_eq!(rt; read_words(rt.alloc(), &words)?, Some(Command::Compact));
    let words = words_of(&rt, "compact x")?;
    assert_eq!(rt; read_words(rt.alloc(), &words)?, None);
    Ok(())
}
