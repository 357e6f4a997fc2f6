ghost use Rattle.four_point.specs.residue_join.HalfUnits.{TakesHalfUnits, CountsItsNeighbours, CountsItsResult};

/// In the three-point count of ASTM E1049-85, 5.4.4, a part of a history may be put for its
/// residue, where each of its cycles counts two half units. A residue counts one half unit for each
/// two neighbours. So cycles and residue of a history say exactly what the three-point count over
/// the whole of it says.
pub fn half_units()
    ensures part { TakesHalfUnits }
    ensures residue { CountsItsNeighbours }
    ensures whole { CountsItsResult }
{}
