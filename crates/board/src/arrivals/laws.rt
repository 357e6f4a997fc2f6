//! The law of the arrivals of a round, for all blocks, workers, recordings and orders of events.

ghost use Rattle.board.specs.arrivals.Arrivals.{ArrivalsAreReached, ReachedAreArrivals, ArrivalsAscend};

/// A list of arrivals is placed by a run of the flow that first makes every feed, gauge by gauge,
/// and then counts and places each name of the list in order; all of these events are allowed, and
/// they leave nothing unread, in a ring or counted. And whatever feeds, counts and deposits a run
/// makes, where they leave nothing, what they placed is a list of arrivals.
/// Those of one gauge through one worker ascend.
pub fn placed()
    ensures reached { ArrivalsAreReached }
    ensures reaches { ReachedAreArrivals }
    ensures ascend { ArrivalsAscend }
{}
