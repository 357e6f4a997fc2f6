//! What the definitions of the commands come to in numbers; those of readings and of a
//! configuration are in `calibration::laws` and `site_config::laws`.

ghost use Rattle.std.specs.Prelude.{◌≡◌, ◌<◌, ◌↔◌, ◌+◌, ◌-◌, ◌*◌, ◌^◌, ℕ, ℤ, pos, min, List, length, slice_index};
ghost use Rattle.calibration.specs.Level.{reading_of};
ghost use Rattle.calibration.specs.declared.reading.Reading.TheVariants.{Level};
ghost use Rattle.recording.specs.Samples.{samples};
ghost use Rattle.site_config.specs.recorded.Recorded.{Recorded};
ghost use Rattle.count_command.specs.held_samples.Told.{held_after};
ghost use Rattle.file_commands.specs.file_tasks.FileState.{TooManySamples, body_state};
ghost use Rattle.monitor.specs.Printed.{table_gain, table_grid};

/// `table` reads a raw value from 0 to 63 as its own level and no other, and its classes are two
/// steps wide, which is 1 N/mm².
pub fn table()
    ensures level { (raw : ℤ) (l : ℕ) →
        (reading_of table_gain table_grid raw ≡ Level l) ↔ ((raw ≡ pos l) × (l < 64)) }
    ensures classes { table_grid.classes ≡ 64 }
    ensures width { table_grid.w2 ≡ 2 }
{}

/// A recording has 2^40 - 1 samples at most, and a round stores at most 16 blocks of each gauge.
pub fn samples_of_a_gauge()
    ensures most { (body : List ℕ) →
        (body_state body ≡ TooManySamples) ↔ (2 ^ 40 - 1 < length (samples body)) }
    ensures round { (block : ℕ) (r : Recorded) (n : List ℕ) (rounds g : ℕ) →
        held_after block r n rounds g ≡
        min (slice_index n g + 16 * block * rounds) (length (r.samples g)) }
{}
