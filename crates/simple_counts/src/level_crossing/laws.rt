ghost use Rattle.simple_counts.specs.level_crossing.Crossings.{AreOfPoints};

/// The crossings of a history are those of its points.
pub fn of_points()
    ensures { AreOfPoints }
{}
