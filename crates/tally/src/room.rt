ghost use Rattle.std.specs.Prelude.{◌≡◌, ◌≤◌};
ghost use Rattle.tally.specs.Counts.{most_cells};
ghost use Rattle.tally.specs.Room.{room_for};
ghost use Rattle.calibration.specs.declared.grid.TheConstants.{MAX_CLASSES, MIN_CLASSES};

/// How many different cells a segment of at most `longest` samples can come to: the lesser of all
/// pairs of the classes and half of the samples ([`crate::laws::room`]).
pub fn room_for(classes: u16, longest: u64) -> u32
    requires few { MIN_CLASSES ≤ classes }
    requires many { classes ≤ MAX_CLASSES }
    ensures room { result ≡ room_for classes longest }
    ensures most { result ≤ most_cells classes }
{
    let most = classes as u64 * (classes as u64 - 1) / 2;
    most.min(longest / 2) as u32
}
