ghost use Rattle.std.specs.Prelude.{◌≡◌};
ghost use Rattle.report_command.specs.windows.Window.{IsInstant, instant_of, lies_inside};

use segment::segment_rules::Name;

// The nanoseconds of a microsecond.
const NANOS_PER_MICRO: u128 = 1000;

/// Whether a body of this name begins and ends in a window: sample 0 stands at `start`, and the
/// samples are `period_us` microseconds apart. The instants are nanoseconds, from -2^70 to 2^70.
pub fn inside(start: i128, period_us: u32, from: i128, to: i128, name: &Name) -> bool
    requires start { IsInstant start }
    requires from { IsInstant from }
    requires to { IsInstant to }
    ensures { result ≡ lies_inside start period_us from to name.now }
{
    from <= instant_of(start, period_us, name.from) && instant_of(start, period_us, name.to) <= to
}

// When a sample stands.
fn instant_of(start: i128, period_us: u32, sample: u64) -> i128
    requires { IsInstant start }
    ensures { result ≡ instant_of start period_us sample }
{
    start + (u128::from(sample) * u128::from(period_us) * NANOS_PER_MICRO) as i128
}
