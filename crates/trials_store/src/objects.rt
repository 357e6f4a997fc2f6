ghost use Rattle.std.specs.Prelude.{◌≡◌, ◌<◌, ◌≤◌};
ghost use Rattle.outside.specs.declared.site.TheConstants.{MAX_SOURCES_OUT};

use outside::{
    BytesSource, Failed, Gate, HoldGate, MAX_SOURCES_OUT, MapSite, OpenGate, Sink, Site, Source,
    SteadySource, VecSink,
};
use std::alloc::{AllocError, Global};
use std::collections::BTreeMap;
use std::test::Fail;

fn take_four<S: Source + Send>(source: &mut S) -> (Result<usize, Failed>, [u8; 4]) {
    let mut buf = [0; 4];
    let taken = source.take(&mut buf);
    (taken, buf)
}

fn first_four<T: Site>(site: &mut T, name: &str) -> Result<[u8; 4], Failed>
    requires { T.out site.old < MAX_SOURCES_OUT }
    ensures { T.out site.new ≡ T.out site.old }
{
    let mut source = site.fetch(name)?;
    let (_, buf) = take_four(&mut source);
    site.give_back(source);
    Ok(buf)
}

fn put_file(
    alloc: Global,
    files: &mut BTreeMap<String, Vec<u8>>,
    name: &str,
    bytes: &[u8],
) -> Result<(), AllocError> {
    files.insert(String::from_str(alloc, name)?, bytes.to_vec(alloc)?)?;
    Ok(())
}

// The bytes 7 8 9 under the name `a`.
fn one_file(alloc: Global) -> Result<BTreeMap<String, Vec<u8>>, AllocError> {
    let mut files = BTreeMap::new(alloc);
    put_file(alloc, &mut files, "a", &[7, 8, 9])?;
    Ok(files)
}

#[test]
fn takes_are_short_and_fail_by_number(rt: HostRuntime) -> Result<(), Fail> {
    let alloc = rt.alloc();
    let bytes = vec![in alloc; 1, 2, 3, 4, 5]?;
    let mut source = BytesSource::new(bytes, 2, vec![in alloc; 1]?);
    let steps = [
        (Ok(2), [1, 2, 0, 0]),
        (Err(Failed), [0; 4]),
        (Ok(2), [3, 4, 0, 0]),
        (Ok(1), [5, 0, 0, 0]),
        (Ok(0), [0; 4]),
    ];
    for step in steps {
        assert_eq!(rt; take_four(&mut source), step);
    }
    Ok(())
}

#[test]
fn a_steady_source_fills_each_buffer(rt: HostRuntime) -> Result<(), Fail> {
    let bytes = vec![in rt.alloc(); 1, 2, 3, 4, 5]?;
    let mut source = SteadySource::new(bytes);
    for step in [
        (Ok(4), [1, 2, 3, 4]),
        (Ok(1), [5, 0, 0, 0]),
        (Ok(0), [0; 4]),
    ] {
        assert_eq!(rt; take_four(&mut source), step);
    }
    Ok(())
}

// A skip that failed skips nothing, and no skip passes the end.
#[test]
fn skips_are_short_and_fail_by_number(rt: HostRuntime) -> Result<(), Fail> {
    let alloc = rt.alloc();
    let bytes = vec![in alloc; 1, 2, 3, 4, 5, 6]?;
    let mut source = BytesSource::new(bytes, 2, vec![in alloc; 1, 6]?);
    for (most, skipped) in [(3, Ok(2)), (3, Err(Failed)), (1, Ok(1)), (0, Ok(0))] {
        assert_eq!(rt; source.skip(most), skipped);
    }
    assert_eq!(rt; take_four(&mut source), (Ok(2), [4, 5, 0, 0]));
    for (most, skipped) in [(9, Ok(1)), (9, Err(Failed)), (9, Ok(0))] {
        assert_eq!(rt; source.skip(most), skipped);
    }
    Ok(())
}

#[test]
fn a_steady_source_skips_all_at_once(rt: HostRuntime) -> Result<(), Fail> {
    let bytes = vec![in rt.alloc(); 1, 2, 3, 4, 5]?;
    let mut source = SteadySource::new(bytes);
    assert_eq!(rt; source.skip(3), Ok(3));
    assert_eq!(rt; take_four(&mut source), (Ok(2), [4, 5, 0, 0]));
    assert_eq!(rt; source.skip(3), Ok(0));
    let bytes = vec![in rt.alloc(); 1, 2, 3, 4, 5]?;
    assert_eq!(rt; SteadySource::new(bytes).skip(u64::MAX), Ok(5));
    Ok(())
}

#[test]
fn puts_fail_by_number_and_past_the_room(rt: HostRuntime) -> Result<(), Fail> {
    let alloc = rt.alloc();
    let mut sink = VecSink::new(alloc, 5, vec![in alloc; 1]?)?;
    let steps: [(&[u8], Result<(), Failed>); 5] = [
        (&[1, 2], Ok(())),
        (&[3], Err(Failed)),
        (&[3, 4], Ok(())),
        (&[5, 6], Err(Failed)),
        (&[5], Ok(())),
    ];
    for (bytes, want) in steps {
        assert_eq!(rt; sink.put(bytes), want);
    }
    assert_eq!(rt; sink.written(), [1, 2, 3, 4, 5].as_slice());
    Ok(())
}

#[test]
fn fetches_fail_by_number_and_without_a_file(rt: HostRuntime) -> Result<(), Fail> {
    let alloc = rt.alloc();
    let mut site = MapSite::new(alloc, one_file(alloc)?, 2, vec![in alloc; 1]?);
    assert_eq!(rt; first_four(&mut site, "a"), Ok([7, 8, 0, 0]));
    assert_eq!(rt; first_four(&mut site, "a"), Err(Failed));
    assert_eq!(rt; first_four(&mut site, "b"), Err(Failed));
    assert_eq!(rt; first_four(&mut site, "a"), Ok([7, 8, 0, 0]));
    Ok(())
}

// A site of one file, and how many of so many fetches of it give a source with the whole file, all
// sources being out at the same time.
fn whole_sources(alloc: Global, site: &mut MapSite, count: usize) -> Result<usize, Fail>
    requires home { site.old.out ≡ 0 }
    requires few { count ≤ MAX_SOURCES_OUT }
{
    let mut sources = Vec::new(alloc);
    for _ in 0..count {
        sources.push(site.fetch("a")?)?;
    }
    let mut whole = 0;
    while let Some(mut source) = sources.pop() {
        if take_four(&mut source) == (Ok(3), [7, 8, 9, 0]) {
            whole += 1;
        }
        site.give_back(source);
    }
    Ok(whole)
}

#[test]
fn sixty_four_sources_are_out_at_once(rt: HostRuntime) -> Result<(), Fail> {
    let alloc = rt.alloc();
    for count in [2, 64] {
        let mut site = MapSite::new(alloc, one_file(alloc)?, 3, Vec::new(alloc));
        assert_eq!(rt; whole_sources(alloc, &mut site, count)?, count);
    }
    Ok(())
}

// The answers of three takes of up to two bytes, of a source of the file of this name.
fn three_takes<T: Site>(site: &mut T, name: &str) -> Result<[Result<usize, Failed>; 3], Failed>
    requires { T.out site.old < MAX_SOURCES_OUT }
    ensures { T.out site.new ≡ T.out site.old }
{
    let mut source = site.fetch(name)?;
    let mut takes = [Ok(0); 3];
    for taken in &mut takes {
        *taken = take_four(&mut source).0;
    }
    site.give_back(source);
    Ok(takes)
}

// The takes of one name fail, in each source of it, until another name and list are given.
#[test]
fn reads_fail_by_name_and_number(rt: HostRuntime) -> Result<(), Fail> {
    let alloc = rt.alloc();
    let mut files = one_file(alloc)?;
    put_file(alloc, &mut files, "b", &[5])?;
    let site = MapSite::new(alloc, files, 2, Vec::new(alloc));
    let name = String::from_str(alloc, "a")?;
    let mut site = site.failing_reads(name, vec![in alloc; 0, 2]?);
    let takes = [Err(Failed), Ok(2), Err(Failed)];
    assert_eq!(rt; three_takes(&mut site, "a"), Ok(takes));
    assert_eq!(rt; three_takes(&mut site, "a"), Ok(takes));
    assert_eq!(rt; three_takes(&mut site, "b"), Ok([Ok(1), Ok(0), Ok(0)]));
    assert_eq!(rt; three_takes(&mut site, "c"), Err(Failed));

    let name = String::from_str(alloc, "b")?;
    let mut site = site.failing_reads(name, vec![in alloc; 1]?);
    assert_eq!(rt; three_takes(&mut site, "a"), Ok([Ok(2), Ok(1), Ok(0)]));
    assert_eq!(rt;
        three_takes(&mut site, "b"),
        Ok([Ok(1), Err(Failed), Ok(0)])
    );
    Ok(())
}

// A source that failed comes back, and the next fetches don't fail for it.
#[test]
fn a_source_with_a_fault_comes_back(rt: HostRuntime) -> Result<(), Fail> {
    let alloc = rt.alloc();
    let mut site = MapSite::new(alloc, one_file(alloc)?, 4, Vec::new(alloc));
    let _given = site.fetch("a")?;
    let bytes = vec![in alloc; 1]?;
    let mut faulty = BytesSource::new(bytes, 1, vec![in alloc; 0]?);
    assert_eq!(rt; take_four(&mut faulty), (Err(Failed), [0; 4]));
    site.give_back(faulty);
    assert_eq!(rt; first_four(&mut site, "a"), Ok([7, 8, 9, 0]));
    assert_eq!(rt; first_four(&mut site, "a"), Ok([7, 8, 9, 0]));
    Ok(())
}

#[test]
fn a_fault_has_a_text(rt: HostRuntime) -> Result<(), Fail> {
    let text = format!(in rt.alloc(); "{Failed}")?;
    assert_eq!(rt; text.as_str(), "a call of the outside failed");
    Ok(())
}

// A lone pass is held to the limit, and so is its worker's first pass alone.
#[test]
fn a_lone_pass_gives_up(rt: HostRuntime) {
    OpenGate.pass(0, 0, 0);
    for (workers, passes, gave_up) in [([0, 0, 0], 3, true), ([2, 7, 3], 3, false)] {
        let gate = HoldGate::new(10);
        for worker in workers {
            gate.pass(worker, 0, 0);
        }
        assert_eq!(rt; gate.passes(), passes);
        assert_eq!(rt; gate.gave_up(), gave_up);
    }
}
