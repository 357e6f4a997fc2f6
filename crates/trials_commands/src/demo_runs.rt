ghost use Rattle.std.specs.Prelude.{◌≤◌};

use calibration::{MAX_DEMO_SAMPLES, MAX_SEED};
use demo_command::demo_command;
use outside::{OpenGate, VecSink};
use status::Status;
use std::process::Abort;
use std::sync::Wait;
use std::test::Fail;
use std::thread::Threads;

// It prints this text with any number of workers.
fn check<R: Abort + AllocGlobal + Threads + Wait + Sync>(
    rt: &R,
    seed: u64,
    samples: u64,
    text: &str,
) -> Result<(), Fail>
    requires seed { seed ≤ MAX_SEED }
    requires samples { (1 ≤ samples) × (samples ≤ MAX_DEMO_SAMPLES) }
{
    for workers in 1..9 {
        let mut out = VecSink::new(rt.alloc(), 400, Vec::new(rt.alloc()))?;
        let status = demo_command(rt, seed, samples, workers, &mut out, &OpenGate);
        assert_eq!(rt; status, Status::Done);
        assert_eq!(rt; out.written(), text.as_bytes(), "with {workers} workers");
    }
    Ok(())
}

// The numbers come from another program, which takes the standard's steps one by one.
#[test]
fn four_recordings_come_to_these_cycles(rt: HostRuntime) -> Result<(), Fail> {
    check(
        &rt,
        0,
        1,
        "demo seed 0 samples 1
gauge 0 cycles 0.0 residue 1
gauge 1 cycles 0.0 residue 1
gauge 2 cycles 0.0 residue 1
gauge 3 cycles 0.0 residue 1
",
    )?;
    check(
        &rt,
        7,
        9,
        "demo seed 7 samples 9
gauge 0 cycles 2.5 residue 4
gauge 1 cycles 4.0 residue 5
gauge 2 cycles 2.0 residue 5
gauge 3 cycles 1.5 residue 4
",
    )?;
    check(
        &rt,
        MAX_SEED,
        40_000,
        "demo seed 9223372036854775807 samples 40000
gauge 0 cycles 13246.0 residue 13
gauge 1 cycles 13271.0 residue 15
gauge 2 cycles 13241.0 residue 9
gauge 3 cycles 13265.5 residue 10
",
    )?;
    check(
        &rt,
        0,
        100_000,
        "demo seed 0 samples 100000
gauge 0 cycles 33206.5 residue 14
gauge 1 cycles 33330.0 residue 15
gauge 2 cycles 33206.5 residue 8
gauge 3 cycles 33286.5 residue 8
",
    )
}

#[test]
fn an_output_without_room_is_a_write_fault(rt: HostRuntime) -> Result<(), Fail> {
    let mut out = VecSink::new(rt.alloc(), 21, Vec::new(rt.alloc()))?;
    let status = demo_command(&rt, 0, 1, 2, &mut out, &OpenGate);
    assert_eq!(rt; status, Status::WriteFault);
    assert!(rt; b"demo seed 0 samples 1\n".starts_with(out.written()));
    Ok(())
}
