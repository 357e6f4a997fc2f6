use outside::{BytesSource, Source, VecSink};
use recording::{
    Fill, FillEnd, Head, HeadFault, Skip, Synth, fill, read_head, skip, write_head, write_samples,
};
use std::alloc::{AllocError, Global};
use std::test::Fail;

/// The samples -2, 1 and -3, and two bytes more.
const BODY: &[u8] = &[254, 255, 255, 255, 1, 0, 0, 0, 253, 255, 255, 255, 5, 0];

/// The id of sixteen bytes 0x11 and the period 10000, as the format lays them out.
const HEAD: [u8; 32] = [
    0x53, 0x47, 0x52, 0x43, 1, 0, 0, 0, 0x11, 0x11, 0x11, 0x11, 0x11, 0x11, 0x11, 0x11, 0x11, 0x11,
    0x11, 0x11, 0x11, 0x11, 0x11, 0x11, 0x10, 0x27, 0, 0, 0, 0, 0, 0,
];

fn head() -> Head {
    Head {
        id: [0x11; 16],
        period_us: 10000,
    }
}

fn source_of(
    alloc: Global,
    bytes: &[u8],
    longest: usize,
    failing: &[u64],
) -> Result<BytesSource, AllocError> {
    Ok(BytesSource::new(bytes.to_vec(alloc)?, longest.max(1), failing.to_vec(alloc)?))
}

fn filled<S: Source, const N: usize>(source: &mut S) -> (usize, FillEnd, [i32; N]) {
    let mut buf = [0; N];
    let Fill { n, end } = fill(source, &mut buf);
    (n, end, buf)
}

fn skipped<S: Source>(source: &mut S, n: u64) -> (u64, FillEnd) {
    let Skip { n, end } = skip(source, n);
    (n, end)
}

#[test]
fn a_torn_body_ends_so_by_takes_of_any_size(rt: HostRuntime) -> Result<(), Fail> {
    for longest in [1, 2, 3, 7, 4096] {
        let mut source = source_of(rt.alloc(), BODY, longest, &[])?;
        assert_eq!(rt;
            filled(&mut source),
            (3, FillEnd::Torn(2), [-2, 1, -3, 0, 0])
        );
    }
    Ok(())
}

#[test]
fn samples_are_skipped_by_takes_of_any_size(rt: HostRuntime) -> Result<(), Fail> {
    for longest in [1, 2, 3, 7, 4096] {
        let mut source = source_of(rt.alloc(), BODY, longest, &[])?;
        assert_eq!(rt; skipped(&mut source, 1), (1, FillEnd::More));
        assert_eq!(rt; filled(&mut source), (2, FillEnd::More, [1, -3]));
        assert_eq!(rt; skipped(&mut source, 1), (0, FillEnd::Torn(2)));
    }
    Ok(())
}

// Skips of three bytes, of which one fails. Behind it stands what the samples that came before it
// and their part sample have left.
#[test]
fn a_failed_skip_loses_a_part_sample(rt: HostRuntime) -> Result<(), Fail> {
    let cases = [
        (0, 0, (3, FillEnd::Torn(2))),
        (1, 0, (2, FillEnd::Torn(3))),
        (2, 1, (2, FillEnd::Ended)),
        (3, 2, (1, FillEnd::Torn(1))),
    ];
    for (failing, n, rest) in cases {
        let mut source = source_of(rt.alloc(), BODY, 3, &[failing])?;
        assert_eq!(rt;
            skipped(&mut source, 3),
            (n, FillEnd::Failed),
            "at {failing}"
        );
        assert_eq!(rt; skipped(&mut source, u64::MAX), rest, "at {failing}");
    }
    Ok(())
}

// A source that has no faster way takes what it skips.
#[test]
fn made_samples_are_skipped(rt: HostRuntime) -> Result<(), Fail> {
    let mut synth = Synth::new(7, 5);
    assert_eq!(rt; skipped(&mut synth, 2), (2, FillEnd::More));
    assert_eq!(rt; filled(&mut synth), (2, FillEnd::More, [52, -30]));
    assert_eq!(rt; skipped(&mut synth, 2), (1, FillEnd::Ended));
    let mut synth = Synth::new(7, 40_000);
    assert_eq!(rt; skipped(&mut synth, 39_999), (39_999, FillEnd::More));
    assert_eq!(rt; skipped(&mut synth, u64::MAX), (1, FillEnd::Ended));
    Ok(())
}

#[test]
fn a_failed_take_loses_a_part_sample(rt: HostRuntime) -> Result<(), Fail> {
    let mut source = source_of(rt.alloc(), BODY, 3, &[2])?;
    assert_eq!(rt; filled(&mut source), (1, FillEnd::Failed, [-2, 0, 0]));
    // The next samples are 00 00 fd ff and ff ff 05 00.
    assert_eq!(rt;
        filled(&mut source),
        (2, FillEnd::Ended, [-196608, 393215, 0])
    );
    Ok(())
}

// Takes of four bytes give a sample each, and the fourth finds the end. After a fault at the end of
// a whole sample the next fill goes on with the next sample.
#[test]
fn a_failed_take_after_a_whole_sample_loses_nothing(rt: HostRuntime) -> Result<(), Fail> {
    let cases = [
        (0, (0, [0; 4]), (3, [-2, 1, -3, 0])),
        (1, (1, [-2, 0, 0, 0]), (2, [1, -3, 0, 0])),
        (2, (2, [-2, 1, 0, 0]), (1, [-3, 0, 0, 0])),
        (3, (3, [-2, 1, -3, 0]), (0, [0; 4])),
    ];
    for (failing, (n, first), (m, second)) in cases {
        let mut source = source_of(rt.alloc(), &BODY[..12], 4, &[failing])?;
        assert_eq!(rt; filled(&mut source), (n, FillEnd::Failed, first));
        assert_eq!(rt; filled(&mut source), (m, FillEnd::Ended, second));
    }
    Ok(())
}

// Takes of seven bytes: the third one would find the end.
#[test]
fn the_take_that_finds_the_end_fails(rt: HostRuntime) -> Result<(), Fail> {
    let mut source = source_of(rt.alloc(), BODY, 7, &[2])?;
    assert_eq!(rt; filled(&mut source), (3, FillEnd::Failed, [-2, 1, -3, 0]));
    assert_eq!(rt; filled(&mut source), (0, FillEnd::Ended, [0; 4]));
    let mut source = source_of(rt.alloc(), BODY, 7, &[2])?;
    assert_eq!(rt; skipped(&mut source, 4), (3, FillEnd::Failed));
    assert_eq!(rt; skipped(&mut source, 4), (0, FillEnd::Ended));
    Ok(())
}

#[test]
fn each_fault_of_a_head_has_a_text(rt: HostRuntime) -> Result<(), Fail> {
    let cases = [
        (HeadFault::Short, "shorter than 32 bytes"),
        (HeadFault::Magic, "no SGRC at the front"),
        (HeadFault::Version(255), "version 255 in place of 1"),
        (HeadFault::NotZero, "a reserved byte that is not 0"),
        (HeadFault::ReadFault, "a read failed"),
    ];
    for (fault, want) in cases {
        let text = format!(in rt.alloc(); "{fault}")?;
        assert_eq!(rt; text.as_str(), want);
    }
    Ok(())
}

#[test]
fn each_fault_of_a_head_is_named(rt: HostRuntime) -> Result<(), Fail> {
    let cases = [
        (3, 0x43, Ok(head())),
        (3, 0x53, Err(HeadFault::Magic)),
        (4, 2, Err(HeadFault::Version(2))),
        (5, 1, Err(HeadFault::NotZero)),
        (7, 1, Err(HeadFault::NotZero)),
        (28, 1, Err(HeadFault::NotZero)),
        (31, 255, Err(HeadFault::NotZero)),
    ];
    for (place, byte, want) in cases {
        let mut bytes = HEAD;
        if place < bytes.len() {
            bytes[place] = byte;
        }
        let mut source = source_of(rt.alloc(), &bytes, 5, &[])?;
        assert_eq!(rt; read_head(&mut source), want, "at {place}");
    }
    Ok(())
}

#[test]
fn a_head_is_cut_short_or_not_read(rt: HostRuntime) -> Result<(), Fail> {
    let mut source = source_of(rt.alloc(), &HEAD[..31], 5, &[])?;
    assert_eq!(rt; read_head(&mut source), Err(HeadFault::Short));
    let mut source = source_of(rt.alloc(), &HEAD, 5, &[3])?;
    assert_eq!(rt; read_head(&mut source), Err(HeadFault::ReadFault));
    Ok(())
}

#[test]
fn what_was_written_is_read_back(rt: HostRuntime) -> Result<(), Fail> {
    let alloc = rt.alloc();
    let samples = vec![in alloc; -7; 20000]?;
    let mut sink = VecSink::new(alloc, 80032, Vec::new(alloc))?;
    assert_eq!(rt; write_head(&mut sink, &head()), Ok(()));
    assert_eq!(rt; sink.written(), HEAD.as_slice());
    assert_eq!(rt; write_samples(&mut sink, &samples), Ok(()));
    assert_eq!(rt;
        write_samples(&mut sink, &samples[..1]),
        Err(outside::Failed)
    );

    let mut source = source_of(alloc, sink.written(), 4097, &[])?;
    assert_eq!(rt; read_head(&mut source), Ok(head()));
    let mut buf = vec![in alloc; 0; 20000]?;
    assert_eq!(rt;
        fill(&mut source, &mut buf),
        Fill {
            n: 20000,
            end: FillEnd::More
        }
    );
    assert_eq!(rt; buf, samples);
    assert_eq!(rt; skipped(&mut source, 20000), (0, FillEnd::Ended));
    Ok(())
}

/// The first five samples of seed 7.
const MADE: [i32; 5] = [-1, 58, 52, -30, -30];

// Whatever sizes the takes have, the bytes are the same. Each take gives at least one.
#[test]
fn made_samples_come_by_takes_of_any_size(rt: HostRuntime) -> Result<(), Fail> {
    for (seed, first) in [(0, -54), (1, -10), (2, 34), (3, -50)] {
        assert_eq!(rt;
            filled(&mut Synth::new(seed, 1)),
            (1, FillEnd::Ended, [first, 0])
        );
    }
    let alloc = rt.alloc();
    for size in 1..10 {
        let mut synth = Synth::new(7, 5);
        let mut bytes = Vec::new(alloc);
        for _ in 0..20 {
            let mut buf = [0; 9];
            let n = synth.take(&mut buf[..size])?;
            bytes.extend_from_slice(&buf[..n])?;
        }
        let mut kept = BytesSource::new(bytes, 20, Vec::new(alloc));
        assert_eq!(rt; filled(&mut kept), (5, FillEnd::More, MADE));
    }
    Ok(())
}
