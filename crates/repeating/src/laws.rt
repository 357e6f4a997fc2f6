ghost use Rattle.repeating.specs.Repeating.{AddsItsCycles, ClosesFromResult};

/// A history put behind itself counts by the run of 5.4.4 what it counts alone, and two half units
/// for each cycle that 5.4.5 counts in it.
pub fn turned()
    ensures { AddsItsCycles }
{}

/// The cycles of a repeating history are those of a four-point result of it, and those that its
/// residue closes when it is put behind itself. Then that residue is left again.
pub fn from_result()
    ensures { ClosesFromResult }
{}
