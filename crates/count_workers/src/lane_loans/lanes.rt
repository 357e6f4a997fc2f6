ghost use Rattle.std.specs.Prelude.{◌≡◌, ◌+◌, ◌*◌, ◌≤◌, ◌<◌, ℕ, length, slice_index_or, vec_len};
ghost use Rattle.std.specs.List.{All};
ghost use Rattle.board.specs.flow.Kept.{over};
ghost use Rattle.board.specs.block_pool.Units.{IsBlank};
ghost use Rattle.board.specs.Board.{IsBegun};
ghost use Rattle.board.specs.deposits.Deposited.{SamePool};
ghost use Rattle.count_workers.specs.block_workers.Jobs.{CanRead};
ghost use Rattle.calibration.specs.declared.limits.TheConstants.{MAX_SAMPLES, MAX_GAUGES};
ghost use Rattle.board.specs.declared.flow.TheConstants.{BLOCKS_PER_WINDOW};
ghost use Rattle.count_workers.specs.lane_loans.Lent.{CanRound, at_of, CanLend, LendsSource, ReturnsSource, blanks_at};

use crate::block_workers::Reader;
use crate::lane_loans::Lane;
use crate::lane_loans::units::{give_units, lend_units};
use board::block_pool::Pool;
use board::{Board, MAX_GAUGES};
use outside::Source;

/// Begins the board's windows where the lanes stand.
pub fn begin_windows<C: Source>(board: &mut Board, lanes: &[Lane<C>])
    requires all { (length lanes.now ≡ length board.old.rows) × (length lanes.now ≤ MAX_GAUGES) }
    requires limit { (g : ℕ) (d : _) → g < length lanes.now
        → (slice_index_or lanes.now g d).at ≤ MAX_SAMPLES }
    ensures plan { (board.new.grid ≡ board.old.grid) × (board.new.block ≡ board.old.block)
        × (length board.new.rows ≡ length board.old.rows) }
    ensures begun { IsBegun board.new (at_of lanes.now) }
{
    let mut starts = [0u64; MAX_GAUGES as usize];
    for g in 0..lanes.len() {
        starts[g] = lanes[g].at;
    }
    board.begin(&starts[..lanes.len()]);
}

// Gives a reader its lane's source and a round's units.
fn lend_lane<C: Source>(reader: &mut Reader<C>, lane: &mut Lane<C>, pool: &mut Pool)
    requires lane { CanRound reader.old.desk.gauge lane.old }
    requires reader { CanLend pool.old reader.old }
    requires enough { BLOCKS_PER_WINDOW ≤ pool.old.inside }
    ensures lent { LendsSource reader.old reader.new lane.old lane.new }
    ensures ready { CanRead reader.new }
    ensures pool { SamePool pool.old pool.new
        × (pool.new.inside + BLOCKS_PER_WINDOW ≡ pool.old.inside) }
{
    reader.src = lane.src.take();
    reader.desk.gain = lane.gain;
    reader.desk.at = lane.at;
    reader.desk.end = lane.end;
    lend_units(pool, &mut reader.desk.blanks);
}

/// Gives each reader its lane's source and a round's units.
pub fn lend_lanes<C: Source>(readers: &mut [Reader<C>], lanes: &mut [Lane<C>], pool: &mut Pool)
    requires long { length lanes.old ≡ length readers.old }
    requires lanes { (g : ℕ) (d : _) (e : _) → g < length readers.old
        → CanRound (slice_index_or readers.old g d).desk.gauge (slice_index_or lanes.old g e) }
    requires readers { (g : ℕ) (d : _) → g < length readers.old
        → CanLend pool.old (slice_index_or readers.old g d) }
    requires enough { pool.old.inside ≡ BLOCKS_PER_WINDOW * length readers.old }
    ensures long { (length readers.new ≡ length readers.old)
        × (length lanes.new ≡ length lanes.old) }
    ensures lent { (g : ℕ) (d : _) (e : _) → g < length readers.old
        → LendsSource (slice_index_or readers.old g d) (slice_index_or readers.new g d)
        (slice_index_or lanes.old g e) (slice_index_or lanes.new g e) }
    ensures ready { All CanRead readers.new }
    ensures pool { SamePool pool.old pool.new × (pool.new.inside ≡ 0) }
{
    for g in 0..readers.len() {
        lend_lane(&mut readers[g], &mut lanes[g], pool);
    }
}

// Takes a lane's source back, with how far it was read, and gives back the units that were not
// used.
fn return_lane<C: Source>(reader: &mut Reader<C>, lane: &mut Lane<C>, pool: &mut Pool)
    requires fit { All (IsBlank pool.old.block pool.old.grid) reader.old.desk.blanks.items }
    requires room { pool.old.inside + vec_len reader.old.desk.blanks ≤ pool.old.units }
    ensures returned { ReturnsSource reader.old reader.new lane.old lane.new }
    ensures pool { SamePool pool.old pool.new
        × (pool.new.inside ≡ pool.old.inside + vec_len reader.old.desk.blanks) }
{
    lane.src = reader.src.take();
    lane.at = reader.desk.at;
    lane.end = reader.desk.end;
    give_units(pool, &mut reader.desk.blanks);
}

/// Takes each lane's source back, with how far it was read, and gives back all units that were not
/// used.
pub fn return_lanes<C: Source>(readers: &mut [Reader<C>], lanes: &mut [Lane<C>], pool: &mut Pool)
    requires long { length lanes.old ≡ length readers.old }
    requires fit { (g : ℕ) (d : _) → g < length readers.old
        → All (IsBlank pool.old.block pool.old.grid)
        (slice_index_or readers.old g d).desk.blanks.items }
    requires room { pool.old.inside + over (length readers.old) (blanks_at readers.old)
        ≤ pool.old.units }
    ensures long { (length readers.new ≡ length readers.old)
        × (length lanes.new ≡ length lanes.old) }
    ensures returned { (g : ℕ) (d : _) (e : _) → g < length readers.old
        → ReturnsSource (slice_index_or readers.old g d) (slice_index_or readers.new g d)
        (slice_index_or lanes.old g e) (slice_index_or lanes.new g e) }
    ensures pool { SamePool pool.old pool.new
        × (pool.new.inside ≡ pool.old.inside + over (length readers.old) (blanks_at readers.old)) }
{
    for g in 0..readers.len() {
        return_lane(&mut readers[g], &mut lanes[g], pool);
    }
}
