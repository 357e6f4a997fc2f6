//! The lines that tell what a watcher saw, by their own rule: of each gauge some of the numbers that
//! it may have been seen with, in their order, and the last of them in any case.

use std::alloc::Global;
use std::process::Abort;
use std::test::Fail;

// What stands behind the lines of a gauge, where the text begins with such lines.
fn behind_gauge<'a>(
    alloc: Global,
    text: &'a [u8],
    name: &str,
    numbers: &[u64],
) -> Result<Option<&'a [u8]>, Fail> {
    let mut rest = text;
    let mut is_last_seen = false;
    for &number in numbers {
        let line = format!(in alloc; "seen {name} {number}\n")?;
        match rest.strip_prefix(line.as_bytes()) {
            None => is_last_seen = false,
            Some(more) => {
                rest = more;
                is_last_seen = true;
            }
        }
    }
    Ok(if is_last_seen { Some(rest) } else { None })
}

/// Whether a text is the lines of these gauges, in their order, and nothing else. Of a gauge stand
/// here its name and the numbers that it may have been seen with: what was held at the start, what
/// was acknowledged since, and what is held at the end.
pub fn are_seen(alloc: Global, text: &[u8], gauges: &[(&str, &[u64])]) -> Result<bool, Fail> {
    let mut rest = text;
    for &(name, numbers) in gauges {
        match behind_gauge(alloc, rest, name, numbers)? {
            None => return Ok(false),
            Some(more) => rest = more,
        }
    }
    Ok(rest.is_empty())
}

/// What was told is these lines, and then what a watcher saw of these gauges.
pub fn check_told(
    rt: &impl Abort,
    alloc: Global,
    told: &[u8],
    held: &str,
    gauges: &[(&str, &[u64])],
) -> Result<(), Fail> {
    match told.strip_prefix(held.as_bytes()) {
        None => Err(Fail::new("other lines are told first")),
        Some(seen) => {
            assert!(rt; are_seen(alloc, seen, gauges)?);
            Ok(())
        }
    }
}

// A text, and whether it is one of the gauges A, with 0, 4 and 9, and B, with 7 alone.
const TEXTS: &[(&str, bool)] = &[
    ("seen A 9\nseen B 7\n", true),
    ("seen A 0\nseen A 9\nseen B 7\n", true),
    ("seen A 0\nseen A 4\nseen A 9\nseen B 7\n", true),
    ("", false),
    ("seen A 9\n", false),
    ("seen A 4\nseen B 7\n", false),
    ("seen B 7\nseen A 9\n", false),
    ("seen A 9\nseen A 9\nseen B 7\n", false),
    ("seen A 4\nseen A 0\nseen A 9\nseen B 7\n", false),
    ("seen A 5\nseen A 9\nseen B 7\n", false),
    ("seen A 9\nseen B 7\nheld A 9\n", false),
];

#[test]
fn texts_of_a_watcher(rt: HostRuntime) -> Result<(), Fail> {
    let gauges = [("A", [0, 4, 9u64].as_slice()), ("B", [7u64].as_slice())];
    for &(text, is_one) in TEXTS {
        assert_eq!(rt;
            are_seen(rt.alloc(), text.as_bytes(), &gauges)?,
            is_one,
            "{text}"
        );
    }
    Ok(())
}
