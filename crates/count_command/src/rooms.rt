ghost use Rattle.std.specs.Prelude.{◌≡◌, ◌≤◌, IfOk};
ghost use Rattle.count_workers.specs.Plans.{IsPlan};
ghost use Rattle.calibration.specs.declared.limits.TheConstants.{MAX_WORKERS};
ghost use Rattle.site_config.specs.Valid.{IsConfig};
ghost use Rattle.report_command.specs.site_report.Room.{HasRoom};
ghost use Rattle.count_command.specs.held_rounds.Ready.{AreRoundsToMake};

use crate::held_rounds::RoundsToMake;
use board::Board;
use count_workers::crew::Helpers;
use count_workers::{Plan, Prepared};
use outside::Source;
use report_command::site_report::Report;
use site_config::Config;
use std::alloc::{AllocError, Global};

/// The memory of rounds, and of the report behind them.
#[derive(Drop)]
pub struct Rooms<C: Source> {
    pub rounds: RoundsToMake<C>,
    pub report: Report,
}

// Helpers of several workers. One worker counts in the thread of the rounds.
fn helpers_for<C: Source + Send>(
    alloc: Global,
    plan: &Plan,
    prepared: &mut Prepared<C>,
) -> Result<Option<Helpers>, AllocError>
    requires { IsPlan plan.now }
    ensures { prepared.new ≡ prepared.old }
{
    if plan.workers == 1 {
        return Ok(None);
    }
    Ok(Some(prepared.hire(alloc, plan)?))
}

/// Takes all the memory that rounds by so many workers need, and that of the report behind them.
pub fn take_rooms<C: Source>(
    alloc: Global,
    workers: u8,
    config: &Config,
) -> Result<Rooms<C>, AllocError>
    requires workers { (1 ≤ workers) × (workers ≤ MAX_WORKERS) }
    requires config { IsConfig config.now }
    ensures rounds { IfOk result (λ r. AreRoundsToMake config.now r.rounds.prepared r.rounds.board) }
    ensures report { IfOk result (λ r. HasRoom config.now r.report) }
{
    let plan = Plan {
        grid: config.setup.grid,
        gauges: config.gauges.as_slice().len() as u16,
        block: config.block,
        workers,
    };
    let mut prepared = Prepared::new(alloc, &plan)?;
    let board = Board::new(alloc, plan.gauges, plan.block, &plan.grid)?;
    let helpers = helpers_for(alloc, &plan, &mut prepared)?;
    let report = Report::new(alloc, config)?;
    Ok(Rooms {
        rounds: RoundsToMake {
            prepared,
            board: Some(board),
            helpers,
        },
        report,
    })
}
