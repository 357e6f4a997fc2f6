use crate::sites::{EXAMPLE, EXAMPLE_REPORT, Run, Word, count, made, recording_of, run_at};
use outside::HoldGate;
use status::Status;
use std::process::Abort;
use std::sync::Wait;
use std::test::Fail;
use std::thread::Threads;

fn check(rt: &impl Abort, run: &Run, told: &str, printed: &str) {
    assert_eq!(rt; run.status, Status::Done);
    assert_eq!(rt; run.station.told(), told.as_bytes());
    assert_eq!(rt; run.out.written(), printed.as_bytes());
}

// What a recording without a cycle prints, whose first line is this.
const QUIET: [&str; 2] = [
    "\nrainflow\nmatrix\ncrossings\npeaks\nvalleys\nranges\n",
    "detail W1 G1 0 0/100431314774943243998824192000000000 0.000000000\n",
];

fn check_quiet<R: Abort + AllocGlobal + Threads + Wait + Sync>(
    rt: &R,
    raws: &[i32],
    told: &str,
    samples: &str,
) -> Result<(), Fail> {
    let alloc = rt.alloc();
    let run = count(rt, recording_of(alloc, 0x11, raws)?, made(rt, alloc)?)?;
    let mut text = String::from_str(alloc, "gauge G1\n")?;
    for part in [samples, QUIET[0], QUIET[1]] {
        text.push_str(part)?;
    }
    check(rt, &run, told, text.as_str());
    Ok(())
}

#[test]
fn the_standards_example(rt: HostRuntime) -> Result<(), Fail> {
    let file = recording_of(rt.alloc(), 0x11, EXAMPLE)?;
    let run = count(&rt, file, made(&rt, rt.alloc())?)?;
    check(&rt, &run, "held G1 9\n", EXAMPLE_REPORT);
    Ok(())
}

#[test]
fn recordings_without_a_range(rt: HostRuntime) -> Result<(), Fail> {
    let none = "samples 0 used 0 missing 0 refused 0";
    check_quiet(&rt, &[], "", none)?;
    let plateau = "samples 3 used 3 missing 0 refused 0";
    check_quiet(&rt, &[2, 2, 2], "held G1 3\n", plateau)
}

// Level 15 and level 0, a reading that is missing, and two outside the classes.
#[test]
fn readings_without_a_class(rt: HostRuntime) -> Result<(), Fail> {
    let alloc = rt.alloc();
    let file = recording_of(alloc, 0x11, &[7, 8, i32::MIN, -8, -9])?;
    let run = count(&rt, file, made(&rt, alloc)?)?;
    let text = "gauge G1
samples 5 used 2 missing 1 refused 2
rainflow
15.0 0.5
matrix
0 15 0.5
crossings
1 1
2 1
3 1
4 1
5 1
6 1
7 1
peaks
valleys
ranges
15.0 0.5
detail W1 G1 0 0/100431314774943243998824192000000000 0.000000000
";
    check(&rt, &run, "held G1 5\n", text);
    Ok(())
}

// Each of two workers passes the gate before the other may go on: they count beside each other.
#[test]
fn workers_count_beside_each_other(rt: HostRuntime) -> Result<(), Fail> {
    let gate = HoldGate::new(50_000_000);
    let file = recording_of(rt.alloc(), 0x11, EXAMPLE)?;
    let image = made(&rt, rt.alloc())?;
    let run = run_at(
        &rt,
        Word::Count,
        file,
        image,
        Vec::new(rt.alloc()),
        2000,
        &gate,
    )?;
    check(&rt, &run, "held G1 9\n", EXAMPLE_REPORT);
    assert_eq!(rt; gate.passes(), 3);
    assert!(rt; !gate.gave_up());
    Ok(())
}
