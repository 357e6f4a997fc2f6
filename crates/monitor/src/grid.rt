ghost use Rattle.std.specs.Prelude.{◌≡◌};
ghost use Rattle.monitor.specs.Printed.{table_grid, table_gain};

use calibration::{Classifier, Gain, Grid};

/// The classes of `table`.
pub const CLASSES: u16 = 64;

/// How many half N/mm² a class of `table` is wide.
pub const WIDTH: u16 = 2;

/// The reference level of `table`, in the middle of its classes.
pub const REFERENCE: u16 = 32;

/// One N/mm² in kPa: the stress of a raw value of 1.
pub const KPA: i64 = 1000;

/// The grid of `table`: 64 classes of 1 N/mm² from 0 N/mm² on.
pub fn grid_of_table() -> Grid
    ensures { result ≡ table_grid }
{
    match Grid::new(CLASSES, WIDTH, 0, REFERENCE) {
        Ok(grid) => grid,
        Err(_) => unreachable!(),
    }
}

/// The grid and the gain of `table`: a raw value from 0 to 63 is its own level.
pub fn table_classifier() -> Classifier
    ensures gain { result.gain ≡ table_gain }
    ensures grid { result.grid ≡ table_grid }
{
    match Gain::new(KPA, 1, 0) {
        Ok(gain) => Classifier::new(&gain, &grid_of_table()),
        Err(_) => unreachable!(),
    }
}
