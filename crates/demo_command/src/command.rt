ghost use Rattle.std.specs.Prelude.{◌≡◌, ◌≤◌, ◌++◌};
ghost use Rattle.outside.specs.Fault.{CountRose};
ghost use Rattle.outside.specs.Sink.{AppendsPrefix};
ghost use Rattle.status.specs.Printing.{IsPrinting};
ghost use Rattle.status.specs.declared.status.Status.TheVariants.{Done, WriteFault};
ghost use Rattle.calibration.specs.declared.limits.TheConstants.{MAX_WORKERS};
ghost use Rattle.demo_command.specs.DemoRun.{DemoRuns};
ghost use Rattle.calibration.specs.declared.limits.TheConstants.{MAX_SEED, MAX_DEMO_SAMPLES};

use crate::counting::count_made;
use crate::text::summary_text;
use outside::{Gate, Sink};
use status::Status;
use std::sync::Wait;
use std::thread::Threads;

/// Counts four recordings that are made from a seed, each of so many samples, with so many workers,
/// and prints what they come to. The text is the same for every number of workers.
///
/// It waits for the threads that it starts. A worker passes the gate before each block.
pub fn demo_command<R: AllocGlobal + Threads + Wait + Sync, O: Sink, G: Gate + Sync>(
    rt: &R,
    seed: u64,
    samples: u64,
    workers: u8,
    out: &mut O,
    gate: &G,
) -> Status
    requires seed { seed ≤ MAX_SEED }
    requires samples { (1 ≤ samples) × (samples ≤ MAX_DEMO_SAMPLES) }
    requires workers { (1 ≤ workers) × (workers ≤ MAX_WORKERS) }
    // What it did, by what the output shows before and after: `specs/DemoRun.antt`.
    ensures run { DemoRuns seed samples O.tells (O.written out.old) (O.written out.new)
        (O.faults out.old) (O.faults out.new) result }
    ensures later { O.faults out.old ≤ O.faults out.new }
{
    let Ok(totals) = count_made(rt, seed, samples, workers, gate) else {
        return Status::OutOfMemory;
    };
    let Ok(text) = summary_text(rt.alloc(), seed, samples, &totals) else {
        return Status::OutOfMemory;
    };
    print(text.as_str(), out)
}

fn print<O: Sink>(text: &str, out: &mut O) -> Status
    ensures done { O.tells → result ≡ Done → O.written out.new ≡ O.written out.old ++ text.now }
    ensures front { O.tells → result ≡ WriteFault →
        AppendsPrefix (O.written out.old) (O.written out.new) text.now }
    ensures printing { IsPrinting result }
    ensures cause { result ≡ WriteFault → CountRose (O.faults out.old) (O.faults out.new) }
    ensures later { O.faults out.old ≤ O.faults out.new }
{
    match out.put(text.as_bytes()) {
        Ok(()) => Status::Done,
        Err(_) => Status::WriteFault,
    }
}
