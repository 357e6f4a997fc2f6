//! Tests of the outside in memory, of recordings, live views, rounds and whole stores, beside what
//! their contracts prove: faults of sources, sinks and stations, looks beside shows, the bytes of a
//! store against a written example, every moment of making and of putting, and stores that were
//! changed, cut, padded, put together from others, or grow while they are read. There is no code
//! but the tests.
#![tactic(auto)]

#[cfg(test)]
mod boards;
#[cfg(test)]
mod bodies;
#[cfg(test)]
mod changes;
#[cfg(test)]
mod collectors;
#[cfg(test)]
mod deposits;
#[cfg(test)]
mod growing;
#[cfg(test)]
mod lane_ends;
#[cfg(test)]
mod live_views;
#[cfg(test)]
mod moments;
#[cfg(test)]
mod objects;
#[cfg(test)]
mod recordings;
#[cfg(test)]
mod rings;
#[cfg(test)]
mod rounds;
#[cfg(test)]
mod stations;
#[cfg(test)]
mod stores;
#[cfg(test)]
mod turned;
#[cfg(test)]
mod units;
