use crate::bodies::{run_line, two_bodies};
use crate::held_example::{BODY, CONFIG, HEAD, REFUSED, station_of};
use crate::sites::{COMMON, EXAMPLE_REPORT};
use outside::VecSink;
use outside::station::MomentStation;
use status::Status;
use std::test::Fail;

// A window behind START, and how the report of it begins. Sample `i` stands `10 i` ms behind START;
// the counts of the samples 0 to 4 and 4 to 9 were made by hand.
const WINDOWS: &[(&str, &str)] = &[
    (
        "2024-01-01T00:00:00Z 2024-01-01T00:00:00.089999999Z",
        "window G1 0 4\ngauge G1\nsamples 4 used 4 missing 0 refused 0\n\
         rainflow\n8.0 0.5\n4.0 0.5\n3.0 0.5\nmatrix\n5 9 0.5\n5 13 0.5\n6 9 0.5\n",
    ),
    (
        "2024-01-01T00:00:00.04Z 2024-01-01T00:00:01Z",
        "window G1 4 9\ngauge G1\nsamples 5 used 5 missing 0 refused 0\n\
         rainflow\n8.0 0.5\n7.0 0.5\n6.0 0.5\n4.0 0.5\n",
    ),
    // Both bodies lie across a border.
    (
        "2024-01-01T00:00:00.000000001Z 2024-01-01T00:00:00.089Z",
        "window G1 0 0\ngauge G1\nsamples 0 used 0 missing 0 refused 0\n\
         rainflow\nmatrix\ncrossings\npeaks\nvalleys\nranges\n",
    ),
    (
        "2024-01-02T00:00:00Z 2024-01-02T00:00:00Z",
        "window G1 0 0\ngauge G1\nsamples 0 used 0 missing 0 refused 0\nrainflow\nmatrix\n",
    ),
    // As far as instants reach. (A word that begins with a dash stands behind `--`.)
    (
        "-- -009999-01-02T01:59:59Z 9999-12-30T22:00:00.999999999Z",
        "window G1 0 9\ngauge G1\nsamples 9 used 9 missing 0 refused 0\nrainflow\n9.0 0.5\n",
    ),
];

#[test]
fn what_lies_inside_is_printed(rt: HostRuntime) -> Result<(), Fail> {
    let alloc = rt.alloc();
    let store = two_bodies(&rt)?;
    for &(window, text) in WINDOWS {
        let line = format!(in alloc; "window 2024-01-01T00:00:00Z {window}")?;
        let station = MomentStation::new(alloc, store.as_slice().to_vec(alloc)?, Vec::new(alloc));
        let out = VecSink::new(alloc, 2000, Vec::new(alloc))?;
        let run = run_line(&rt, line.as_str(), COMMON, station, out)?;
        assert_eq!(rt; run.status, Status::Done);
        assert!(rt; run.out.written().starts_with(text.as_bytes()));
        assert_eq!(rt; run.station.told(), b"".as_slice());
    }
    Ok(())
}

// Behind the line of its window the report of the whole window is that of the store.
#[test]
fn the_whole_window_is_the_report(rt: HostRuntime) -> Result<(), Fail> {
    let alloc = rt.alloc();
    let line = "window 2024-01-01T00:00:00Z 2024-01-01T00:00:00Z 2024-01-01T00:00:00.09Z";
    let station = MomentStation::new(alloc, two_bodies(&rt)?, Vec::new(alloc));
    let out = VecSink::new(alloc, 2000, Vec::new(alloc))?;
    let run = run_line(&rt, line, COMMON, station, out)?;
    let mut text = b"window G1 0 9\n".to_vec(alloc)?;
    text.extend_from_slice(EXAMPLE_REPORT.as_bytes())?;
    assert_eq!(rt; run.out.written(), text.as_slice());
    Ok(())
}

// The four bytes of the period, where the window ends, and the line of the window. The body ends
// with sample 4: at 2^32 - 1 microseconds that is 4 h 46 min 19.86918 s behind START.
const PERIODS: &[(&[u8], &str, &str)] = &[
    (&[0, 0, 0, 0], "2024-01-01T00:00:00Z", "window G1 0 4\n"),
    (
        &[255, 255, 255, 255],
        "2024-01-01T04:46:19.86918Z",
        "window G1 0 4\n",
    ),
    (
        &[255, 255, 255, 255],
        "2024-01-01T04:46:19.869179999Z",
        "window G1 0 0\n",
    ),
];

#[test]
fn periods(rt: HostRuntime) -> Result<(), Fail> {
    let alloc = rt.alloc();
    for &(period, to, text) in PERIODS {
        let line = format!(in alloc; "window 2024-01-01T00:00:00Z 2024-01-01T00:00:00Z {to}")?;
        let parts = [&HEAD[..38], period, &HEAD[42..], &[1], BODY, &[0]];
        let station = station_of(alloc, &parts, &[])?;
        let out = VecSink::new(alloc, 2000, Vec::new(alloc))?;
        let run = run_line(&rt, line.as_str(), CONFIG, station, out)?;
        assert_eq!(rt; run.status, Status::Done);
        assert!(rt; run.out.written().starts_with(text.as_bytes()));
    }
    Ok(())
}

#[test]
fn what_is_refused(rt: HostRuntime) -> Result<(), Fail> {
    let alloc = rt.alloc();
    let line = "window 2024-01-01T00:00:00Z 2024-01-01T00:00:00Z 2024-01-01T00:00:01Z";
    for case in REFUSED {
        let station = station_of(alloc, case.parts, &[case.call])?;
        let out = VecSink::new(alloc, 1000, [case.put].to_vec(alloc)?)?;
        let run = run_line(&rt, line, CONFIG, station, out)?;
        assert_eq!(rt; run.status, case.status);
        assert_eq!(rt; run.station.told(), case.line.as_bytes());
    }
    Ok(())
}
