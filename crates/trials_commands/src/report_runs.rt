use crate::held_example::{BODY, CONFIG, HEAD, REFUSED, station_of};
use outside::{BytesSource, VecSink};
use report_command::report_command;
use site_config::ConfigFault;
use status::Status;
use std::test::Fail;

const REPORT: &str = "\
gauge G1
samples 4 used 4 missing 0 refused 0
rainflow
5.0 1.5
matrix
8 13 1.5
crossings
9 2
10 2
11 2
12 2
13 2
peaks
13 1
valleys
ranges
5.0 1.5
detail W1 G1 0 0/100431314774943243998824192000000000 0.000000000
";

#[test]
fn what_is_held_is_printed(rt: HostRuntime) -> Result<(), Fail> {
    let alloc = rt.alloc();
    let mut config = BytesSource::new(CONFIG.as_bytes().to_vec(alloc)?, 7, Vec::new(alloc));
    let mut station = station_of(alloc, &[HEAD, &[1], BODY, &[0]], &[])?;
    let mut out = VecSink::new(alloc, 1000, Vec::new(alloc))?;
    let status = report_command(alloc, &mut config, &mut station, &mut out);
    assert_eq!(rt; status, Status::Done);
    assert_eq!(rt; out.written(), REPORT.as_bytes());
    assert_eq!(rt; station.told(), b"".as_slice());
    Ok(())
}

#[test]
fn what_is_refused(rt: HostRuntime) -> Result<(), Fail> {
    let alloc = rt.alloc();
    for case in REFUSED {
        let mut config = BytesSource::new(CONFIG.as_bytes().to_vec(alloc)?, 7, Vec::new(alloc));
        let mut station = station_of(alloc, case.parts, &[case.call])?;
        let mut out = VecSink::new(alloc, 1000, [case.put].to_vec(alloc)?)?;
        assert_eq!(rt;
            report_command(alloc, &mut config, &mut station, &mut out),
            case.status
        );
        assert_eq!(rt; station.told(), case.line.as_bytes());
    }
    Ok(())
}

#[test]
fn a_configuration_is_refused_before_the_store(rt: HostRuntime) -> Result<(), Fail> {
    let alloc = rt.alloc();
    let mut config = BytesSource::new(b"[[".to_vec(alloc)?, 7, Vec::new(alloc));
    let mut station = station_of(alloc, &[], &[])?;
    let mut out = VecSink::new(alloc, 0, Vec::new(alloc))?;
    let status = report_command(alloc, &mut config, &mut station, &mut out);
    assert_eq!(rt; status, Status::Config(ConfigFault::NotToml));
    assert_eq!(rt; out.written(), b"".as_slice());
    Ok(())
}
