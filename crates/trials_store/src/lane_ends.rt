use outside::BytesSource;
use recording::lane_ends::{End, read_samples};
use std::test::Fail;

// Blocks of two samples of a recording that may have three more, whose sources give a few bytes at
// once: what comes of 0 to 19 bytes.
#[test]
fn a_recording_ends_so(rt: HostRuntime) -> Result<(), Fail> {
    let alloc = rt.alloc();
    let whole = [1, 2, 3];
    let rows: [(usize, usize, End); 8] = [
        (0, 0, End::Ended),
        (3, 0, End::Torn(3)),
        (4, 1, End::Ended),
        (9, 2, End::Torn(1)),
        (12, 3, End::Ended),
        (14, 3, End::Torn(2)),
        (16, 3, End::TooLong),
        (19, 3, End::TooLong),
    ];
    let bytes = [1, 0, 0, 0, 2, 0, 0, 0, 3, 0, 0, 0, 4, 0, 0, 0, 5, 0, 0];
    for (len, samples, end) in rows {
        let mut source = BytesSource::new(bytes[..len].to_vec(alloc)?, 3, Vec::new(alloc));
        let mut block = [0; 2];
        let first = read_samples(&mut source, &mut block, 3);
        assert_eq!(rt; first.n, samples.min(2));
        assert_eq!(rt; block[..first.n], whole[..first.n]);
        if first.end != End::More {
            assert_eq!(rt; (first.n, first.end), (samples, end));
            continue;
        }
        let second = read_samples(&mut source, &mut block, 1);
        assert_eq!(rt; (2 + second.n, second.end), (samples, end));
    }
    Ok(())
}

// The take that fails, by its number, and the samples before it.
#[test]
fn a_failed_take_is_a_read_fault(rt: HostRuntime) -> Result<(), Fail> {
    let alloc = rt.alloc();
    for (failing, n, end) in [
        (0, 0, End::ReadFault),
        (1, 1, End::ReadFault),
        (2, 2, End::ReadFault),
        (3, 2, End::TooLong),
    ] {
        let bytes = vec![in alloc; 1; 12]?;
        let mut source = BytesSource::new(bytes, 4, vec![in alloc; failing]?);
        let given = read_samples(&mut source, &mut [0; 4], 2);
        assert_eq!(rt; (given.n, given.end), (n, end));
    }
    Ok(())
}
