use super::{FolderSite, open_ahead};
use crate::reasons::Reasons;
use crate::streams::FileSource;
use outside::{Failed, Site, Source};
use std::alloc::{AllocError, Global};
use std::fs;
use std::fs::File;
use std::test::Fail;

const LONG: &str = "a_long_file_of_the_test";

const HOLES: &str = "a_file_of_holes_of_the_test";

const CUT: &str = "a_cut_file_of_the_test";

// A folder opens as a file does, and can't be read. A source that failed raises the site's count
// when it is given back.
#[test]
fn a_site_counts_what_is_missing_and_what_fails(rt: HostRuntime) -> Result<(), Fail> {
    let mut site = FolderSite::new(&rt, Reasons::new(rt.alloc(), Vec::new(rt.alloc())));
    assert!(rt; site.fetch("no_file_of_this_name").is_err());
    assert_eq!(rt; (site.out, site.faults), (0, 1));
    let Ok(mut folder) = site.fetch(".") else {
        return Err(Fail::new("a folder didn't open"));
    };
    assert_eq!(rt; (site.out, site.faults), (1, 1));
    let mut buf = [0u8; 3];
    assert!(rt; folder.take(&mut buf).is_err());
    site.give_back(folder);
    assert_eq!(rt; (site.out, site.faults), (0, 2));
    Ok(())
}

// 200,000 bytes, of which byte i is i % 251.
fn long_bytes(alloc: Global) -> Result<Vec<u8>, AllocError> {
    let mut bytes = Vec::new(alloc);
    for i in 0..200_000u32 {
        bytes.push((i % 251) as u8)?;
    }
    Ok(bytes)
}

// How many of up to `most` bytes are skipped, by many calls, and the byte behind them, or none.
fn skipped<S: Source>(source: &mut S, most: u64) -> Result<(u64, Option<u8>), Failed> {
    let mut n = 0u64;
    for _ in 0..20 {
        n = n.saturating_add(source.skip(most.saturating_sub(n))?);
    }
    let mut next = [0u8];
    match source.take(&mut next)? {
        0 => Ok((n, None)),
        _ => Ok((n, Some(next[0]))),
    }
}

// More is skipped than is read ahead, and then the rest, which is less.
#[test]
fn a_long_file_is_skipped_to_its_end(rt: HostRuntime) -> Result<(), Fail> {
    fs::write(&rt, LONG, long_bytes(rt.alloc())?)?;
    let mut source = FileSource::new(open_ahead(&rt, LONG)?);
    let mut buf = [0u8; 3];
    assert_eq!(rt; source.take(&mut buf), Ok(3));
    assert_eq!(rt; buf, [0, 1, 2]);
    let cases = [
        (150_000, 150_000, Some(156)),
        (100, 100, Some(6)),
        (1 << 60, 49_895, None),
        (1, 0, None),
    ];
    for (most, n, next) in cases {
        assert_eq!(rt; skipped(&mut source, most), Ok((n, next)));
    }
    assert_eq!(rt; source.faults, 0);
    fs::remove_file(&rt, LONG)?;
    Ok(())
}

// It would take long to read it. One call answers all that was asked for.
#[test]
fn what_is_skipped_is_not_read(rt: HostRuntime) -> Result<(), Fail> {
    File::create(&rt, HOLES)?.set_len(1 << 36)?;
    let mut source = FileSource::new(open_ahead(&rt, HOLES)?);
    let most = (1 << 36) - 5;
    assert_eq!(rt; source.skip(most), Ok(most));
    assert_eq!(rt; skipped(&mut source, 100), Ok((5, None)));
    fs::remove_file(&rt, HOLES)?;
    Ok(())
}

// Nothing is skipped behind the end, wherever it came to lie.
#[test]
fn a_file_is_cut_and_grows(rt: HostRuntime) -> Result<(), Fail> {
    fs::write(&rt, CUT, long_bytes(rt.alloc())?)?;
    let mut source = FileSource::new(open_ahead(&rt, CUT)?);
    assert_eq!(rt; source.take(&mut [0u8; 3]), Ok(3));
    let other = File::options().write(true).open(&rt, CUT)?;
    other.set_len(100_000)?;
    assert_eq!(rt; skipped(&mut source, 150_000), Ok((99_997, None)));
    other.set_len(300_000)?;
    assert_eq!(rt; skipped(&mut source, 150_000), Ok((150_000, Some(0))));
    assert_eq!(rt; skipped(&mut source, 150_000), Ok((49_999, None)));
    fs::remove_file(&rt, CUT)?;
    Ok(())
}

// A folder has a length too, and can't be read.
#[test]
fn a_folder_is_not_skipped(rt: HostRuntime) -> Result<(), Fail> {
    let mut source = FileSource::new(open_ahead(&rt, ".")?);
    assert_eq!(rt; source.skip(1 << 20), Err(Failed));
    assert_eq!(rt; source.faults, 1);
    Ok(())
}
