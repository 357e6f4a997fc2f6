ghost use Rattle.std.specs.Prelude.{◌≤◌};
ghost use Rattle.calibration.specs.declared.grid.TheConstants.{MAX_CLASSES};
ghost use Rattle.calibration.specs.declared.limits.TheConstants.{MAX_BLOCK};

use calibration::{MAX_BLOCK, MAX_CLASSES};
use std::alloc::{AllocError, Global};
use std::fmt;

/// A block that is shorter than the greatest one.
const SHORT_BLOCK: u32 = 1024;

/// What the history looks like: every level as likely as another, or steps of less than one class.
#[derive(Clone, Copy, Debug, PartialEq, Eq)]
pub enum History {
    Noise,
    Walk,
}

/// A unit's tally: with room for each pair, or for half of a block's samples.
#[derive(Clone, Copy, Debug, PartialEq, Eq)]
pub enum Form {
    Table,
    Log,
}

/// What is counted, and how.
#[derive(Clone, Copy, Debug)]
pub struct Plan {
    pub history: History,
    pub classes: u16,
    pub units: u32,
    pub block: u32,
    pub form: Form,
    ghost some: { 64 ≤ classes },
    ghost limit: { classes ≤ MAX_CLASSES },
    ghost full: { 1 ≤ block },
    ghost longest: { block ≤ MAX_BLOCK },
}

impl Plan {
    /// All plans.
    pub fn all(alloc: Global) -> Result<Vec<Plan>, AllocError> {
        let mut plans = Vec::new(alloc);
        for history in [History::Noise, History::Walk] {
            push_history(&mut plans, history)?;
        }
        Ok(plans)
    }
}

// The plans of a history, with one unit and with many.
fn push_history(plans: &mut Vec<Plan>, history: History) -> Result<(), AllocError> {
    for units in [1, 512] {
        push_units(plans, history, units)?;
    }
    Ok(())
}

// The plans of a history and of so many units, with short blocks and with long ones.
fn push_units(plans: &mut Vec<Plan>, history: History, units: u32) -> Result<(), AllocError> {
    for block in [SHORT_BLOCK, MAX_BLOCK] {
        push_plans(plans, history, units, block)?;
    }
    Ok(())
}

// A plan for each number of classes and form. A table for each unit has no place for 1024 classes,
// and up to 64 classes a block of 4096 samples has room for each pair.
fn push_plans(
    plans: &mut Vec<Plan>,
    history: History,
    units: u32,
    block: u32,
) -> Result<(), AllocError>
    requires full { 1 ≤ block }
    requires longest { block ≤ MAX_BLOCK }
{
    plans.push(plan_of(history, 64, units, block, Form::Table))?;
    if block == SHORT_BLOCK {
        plans.push(plan_of(history, 64, units, block, Form::Log))?;
    }
    plans.push(plan_of(history, 128, units, block, Form::Table))?;
    plans.push(plan_of(history, 128, units, block, Form::Log))?;
    plans.push(plan_of(history, MAX_CLASSES, units, block, Form::Log))?;
    Ok(())
}

fn plan_of(history: History, classes: u16, units: u32, block: u32, form: Form) -> Plan
    requires some { 64 ≤ classes }
    requires limit { classes ≤ MAX_CLASSES }
    requires full { 1 ≤ block }
    requires longest { block ≤ MAX_BLOCK }
{
    Plan {
        history,
        classes,
        units,
        block,
        form,
    }
}

impl fmt::Display for History {
    fn fmt<W: fmt::Write>(&self, f: &mut fmt::Formatter<W>) -> fmt::Result {
        f.write_str(match self {
            History::Noise => "noise",
            History::Walk => "walk",
        })
    }
}

impl fmt::Display for Form {
    fn fmt<W: fmt::Write>(&self, f: &mut fmt::Formatter<W>) -> fmt::Result {
        f.write_str(match self {
            Form::Table => "table",
            Form::Log => "log",
        })
    }
}

impl fmt::Display for Plan {
    fn fmt<W: fmt::Write>(&self, f: &mut fmt::Formatter<W>) -> fmt::Result {
        write!(
            f,
            "{} classes {} units {} block {} {}",
            self.history, self.classes, self.units, self.block, self.form
        )
    }
}
