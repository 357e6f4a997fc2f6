//! Exact fractions with one denominator, for sums of damage.
//!
//! A `Frac` is `whole + num / den` with `num` below `den`: a sum stays exact however many shares it
//! has, since all of them have the same denominator. `specs/exact_frac/Frac.antt` has the one
//! definition that the contracts use: `parts`, how many times `1 / den` the number is.
//!
//! A product `n * num` may have 187 bits. It is never formed: `add_times` doubles and adds, and
//! takes wholes out at each step, so no sum on the way passes two denominators. A denominator is at
//! most 10^37, of which ten fit 128 bits, so there are no big numbers and no floating point.
//!
//! Cost: `add_times` takes 64 steps of a few additions, `ceil_decimals` one `add_times`. Neither
//! divides.

mod frac;

pub use frac::{BILLION, Frac, MAX_DEN};
