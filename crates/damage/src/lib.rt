//! The damage of a weld detail: exact fractions, the fatigue strength curves, and their linear sum.
//!
//! [`exact_frac`] adds fractions exactly, [`sn_curve`] has the share of one range (EN 1993-1-9,
//! 7 and 8), and [`miner`] sums the shares.
#![tactic(auto)]

pub mod exact_frac;
pub mod miner;
pub mod sn_curve;
