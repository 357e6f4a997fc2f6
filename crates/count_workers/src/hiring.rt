ghost use Rattle.std.specs.List.{All};
ghost use Rattle.count_workers.specs.Plans.{IsPlan};
ghost use Rattle.count_workers.specs.Hiring.{AllSameButLines, SameButLine};
ghost use Rattle.count_workers.specs.block_workers.Working.{IsIdle};

use crate::block_workers::Worker;
use crate::crew::{Bell, Helper, Helpers, new_line};
use crate::{OutOfMemory, Plan};
use std::alloc::Global;
use std::sync::{Arc, Mutex};

// A new line for a worker; its helper's end.
fn hire_one(
    alloc: Global,
    plan: &Plan,
    bell: &Arc<Bell>,
    worker: &mut Worker,
) -> Result<Helper, OutOfMemory>
    requires plan { IsPlan plan.now }
    requires idle { IsIdle worker.old }
    ensures { SameButLine worker.old worker.new }
{
    let (line, helper) = new_line(alloc, worker.number, plan.block as usize, &plan.grid, bell)?;
    worker.line = Some(line);
    Ok(helper)
}

/// A line for each worker, and their helpers. Where memory runs out no helper begins, and workers
/// count for themselves.
pub(crate) fn hire_all(
    alloc: Global,
    plan: &Plan,
    workers: &mut [Worker],
) -> Result<Helpers, OutOfMemory>
    requires plan { IsPlan plan.now }
    requires idle { All IsIdle workers.old }
    ensures { AllSameButLines workers.old workers.new }
{
    let bell = Arc::new(alloc, Bell::new())?;
    let mut each = Vec::with_capacity(alloc, workers.len())?;
    for v in 0..workers.len() {
        each.push(Mutex::new(hire_one(alloc, plan, &bell, &mut workers[v])?))?;
    }
    Ok(Helpers::new(each, bell))
}

// Ends a worker's line.
fn dismiss_one(worker: &mut Worker)
    ensures { SameButLine worker.old worker.new }
{
    if let Some(line) = &worker.line {
        line.end();
    }
    worker.line = None;
}

/// Ends all lines, so that the helpers end when they have counted what they have.
pub(crate) fn dismiss_all(workers: &mut [Worker])
    ensures { AllSameButLines workers.old workers.new }
{
    for v in 0..workers.len() {
        dismiss_one(&mut workers[v]);
    }
}
