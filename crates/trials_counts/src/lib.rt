//! Tests of the crates below the store, beside what their contracts prove: readings, points,
//! counts, segments, damages and printed texts against tables that come from the standards or
//! from an independent count, and each call that takes memory once on its happy path. There is
//! no code but the tests.
#![tactic(auto)]

#[cfg(test)]
mod crossings;
#[cfg(test)]
mod curves;
#[cfg(test)]
mod damages;
#[cfg(test)]
mod fractions;
#[cfg(test)]
mod joined_residues;
#[cfg(test)]
mod parts;
#[cfg(test)]
mod peaks_and_ranges;
#[cfg(test)]
mod points;
#[cfg(test)]
mod readings;
#[cfg(test)]
mod recounts;
#[cfg(test)]
mod reductions;
#[cfg(test)]
mod repeats;
#[cfg(test)]
mod segments;
#[cfg(test)]
mod standard_steps;
#[cfg(test)]
mod tallies;
#[cfg(test)]
mod texts;
