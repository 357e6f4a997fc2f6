//! Fatigue strength curves of EN 1993-1-9:2005: the damage of one half cycle at a stress range.
//!
//! A `Detail` is a weld detail: normal or shear stress, the detail category, and the partial factor
//! of table 3.1. `specs/sn_curve/Curve.antt` has the curves as the standard's equations between
//! range, category and endurance.
//!
//! `share` computes them in whole numbers. Each range of a grid times its partial factor and each
//! category is a multiple of one fortieth of a N/mm², and limits and slopes are decimals and whole
//! powers. So all shares of a detail have one denominator, below 5.84 * 10^36, and each numerator
//! is below it. Nothing is rounded.
//!
//! Cost: some ten multiplications of 128 bits.

mod curve;
mod detail;

pub use curve::share;
pub use detail::{Detail, DetailFault, Kind};
