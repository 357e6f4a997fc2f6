use crate::held_example::{BODY, CONFIG, HEAD, REFUSED, station_of};
use outside::{BytesSource, VecSink};
use report_command::repeat_command::repeat_command;
use status::Status;
use std::test::Fail;

// Three half cycles in the report, and two cycles where the history repeats.
#[test]
fn what_is_held_is_printed(rt: HostRuntime) -> Result<(), Fail> {
    let alloc = rt.alloc();
    let mut config = BytesSource::new(CONFIG.as_bytes().to_vec(alloc)?, 7, Vec::new(alloc));
    let mut station = station_of(alloc, &[HEAD, &[1], BODY, &[0]], &[])?;
    let mut out = VecSink::new(alloc, 100, Vec::new(alloc))?;
    let status = repeat_command(alloc, &mut config, &mut station, &mut out);
    assert_eq!(rt; status, Status::Done);
    assert_eq!(rt; out.written(), b"repeat G1\n5.0 2.0\n".as_slice());
    assert_eq!(rt; station.told(), b"".as_slice());
    Ok(())
}

#[test]
fn what_is_refused(rt: HostRuntime) -> Result<(), Fail> {
    let alloc = rt.alloc();
    for case in REFUSED {
        let mut config = BytesSource::new(CONFIG.as_bytes().to_vec(alloc)?, 7, Vec::new(alloc));
        let mut station = station_of(alloc, case.parts, &[case.call])?;
        let mut out = VecSink::new(alloc, 100, [case.put].to_vec(alloc)?)?;
        assert_eq!(rt;
            repeat_command(alloc, &mut config, &mut station, &mut out),
            case.status
        );
        assert_eq!(rt; station.told(), case.line.as_bytes());
    }
    Ok(())
}
