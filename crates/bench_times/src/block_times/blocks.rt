ghost use Rattle.std.specs.Prelude.{◌≡◌, ◌*◌, ◌<◌, ◌≤◌, ◌⊎◌, [], length};
ghost use Rattle.std.specs.Bool.{OnTrue};
ghost use Rattle.tally.specs.Counts.{HasGreatestRoom, total_of};
ghost use Rattle.calibration.specs.declared.grid.TheConstants.{MAX_CLASSES};

use crate::block_times::plan::{Form, Plan};
use calibration::MAX_BLOCK;
use four_point::Reducer;
use std::alloc::{AllocError, Global};
use tally::{Tally, room_for};

/// How many blocks go to one board one after another.
const BLOCKS_PER_BOARD: usize = 16;

/// How many boards there are where there are many units.
const BOARDS: u32 = 32;

/// The reducer and the tally of a unit.
#[derive(Drop)]
struct Unit {
    reducer: Reducer,
    tally: Tally,
}

/// The units and boards of a plan.
#[derive(Drop)]
pub struct Site {
    plan: Plan,
    units: Vec<Unit>,
    boards: Vec<Tally>,
}

fn greatest_room(classes: u16) -> u64 {
    classes as u64 * classes as u64
}

fn tally_for(alloc: Global, classes: u16, longest: u64) -> Result<Tally, AllocError>
    requires some { 64 ≤ classes }
    requires limit { classes ≤ MAX_CLASSES }
{
    Tally::new(alloc, classes, room_for(classes, longest))
}

fn new_units(alloc: Global, plan: &Plan) -> Result<Vec<Unit>, AllocError> {
    let longest = match plan.form {
        Form::Table => greatest_room(plan.classes),
        Form::Log => plan.block as u64,
    };
    let mut units = Vec::new(alloc);
    for _ in 0..plan.units {
        let reducer = Reducer::new(alloc, plan.classes)?;
        let tally = tally_for(alloc, plan.classes, longest)?;
        units.push(Unit { reducer, tally })?;
    }
    Ok(units)
}

fn new_boards(alloc: Global, plan: &Plan) -> Result<Vec<Tally>, AllocError> {
    let longest = plan.block as u64 * BLOCKS_PER_BOARD as u64;
    let mut boards = Vec::new(alloc);
    for _ in 0..plan.units.min(BOARDS) {
        boards.push(tally_for(alloc, plan.classes, longest)?)?;
    }
    Ok(boards)
}

impl Site {
    /// Takes the memory of the units and boards of a plan.
    pub fn new(alloc: Global, plan: Plan) -> Result<Site, AllocError> {
        let units = new_units(alloc, &plan)?;
        let boards = new_boards(alloc, &plan)?;
        Ok(Site {
            plan,
            units,
            boards,
        })
    }

    /// Counts a history, block after block. The units and the boards take turns. Where blocks are
    /// not merged, the boards stay as they are.
    pub fn count(&mut self, levels: &[u16], is_merged: bool) {
        let block = self.plan.block as usize;
        count_in_turn(levels, block, &mut self.units, &mut self.boards, is_merged);
    }

    /// A digest of what the boards hold.
    pub fn digest(&self) -> u64 {
        let mut digest = 0u64;
        for board in &self.boards {
            digest = digest
                .wrapping_mul(6364136223846793005)
                .wrapping_add(board.total());
            if let Some(cell) = board.next(0, 0) {
                digest = digest.wrapping_add(cell.n << 20 & 0xffff_ffff_ffff);
            }
        }
        digest
    }
}

fn count_in_turn(
    levels: &[u16],
    block: usize,
    units: &mut [Unit],
    boards: &mut [Tally],
    is_merged: bool,
)
    requires { 1 ≤ block }
{
    if units.is_empty() || boards.is_empty() {
        return;
    }
    let mut i = 0usize;
    for part in levels.chunks(block) {
        let unit = i % units.len();
        let board = i / BLOCKS_PER_BOARD % boards.len();
        fill(part, &mut units[unit]);
        if is_merged {
            merge_into(&mut boards[board], &units[unit].tally);
        }
        i = i.wrapping_add(1);
    }
}

// A block that the unit has no room for is left out, and so is a level outside its classes.
fn fill(levels: &[u16], unit: &mut Unit) {
    unit.tally.clear();
    unit.reducer.clear();
    let classes = unit.tally.classes();
    if unit.reducer.classes() == classes
        && levels.len() <= MAX_BLOCK as usize
        && has_room(&unit.tally, levels.len())
    {
        push_all(levels, classes, &mut unit.reducer, &mut unit.tally);
    }
}

fn has_room(tally: &Tally, samples: usize) -> bool
    ensures { OnTrue result (HasGreatestRoom tally.now ⊎ (samples ≤ 2 * tally.now.room)) }
{
    let most = tally.classes() as u32 * (tally.classes() as u32 - 1) / 2;
    if tally.room() == most {
        return true;
    }
    samples <= 2 * tally.room() as usize
}

#[inline(never)]
fn push_all(levels: &[u16], classes: u16, reducer: &mut Reducer, tally: &mut Tally)
    requires short { length levels.now ≤ MAX_BLOCK }
    requires classes { reducer.old.classes ≡ classes }
    requires same { tally.old.classes ≡ classes }
    requires none { reducer.old.residue ≡ [] }
    requires empty { tally.old.cells ≡ [] }
    requires room { HasGreatestRoom tally.old ⊎ (length levels.now ≤ 2 * tally.old.room) }
{
    for i in 0..levels.len() {
        let level = levels[i];
        if level < classes {
            reducer.push(level, tally);
        }
    }
}

// The total, which is no less than the number of cells.
fn total_with_cells(tally: &Tally) -> u64
    ensures total { result ≡ total_of tally.now.cells }
    ensures cells { length tally.now.cells ≤ result }
{
    tally.total()
}

// A board that may have no room for the unit's cells is emptied first.
#[inline(never)]
fn merge_into(board: &mut Tally, unit: &Tally) {
    let more = total_with_cells(unit);
    if board.classes() != unit.classes() || more > board.room() as u64 {
        return;
    }
    if total_with_cells(board) > board.room() as u64 - more {
        board.clear();
    }
    board.merge(unit);
}
