ghost use Rattle.turning_points.specs.three_point.Standard.{HasSteps};
ghost use Rattle.turning_points.specs.three_point.Sums.{HasRangeSums};

/// Whoever takes the steps of ASTM E1049-85, 5.4.4, as `specs/three_point/Standard.antt` numbers
/// them, counts the ranges of `run` in their order.
pub fn standard()
    ensures { HasSteps }
{}

/// The half units at a range are the sum of the half units of the pairs of levels so far apart.
pub fn range_sums()
    ensures { HasRangeSums }
{}
