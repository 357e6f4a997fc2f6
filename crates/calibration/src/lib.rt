//! Stress classes: a gain turns a raw value into a stress, a grid puts the stress into a class.
//!
//! `specs/Level.antt` has the definition, with a floor for each of the two steps: the stress is
//! `floor(raw * num / den) + offset` kPa, the level `floor((stress - low) / width)`, and negative
//! quotients round down. `specs/History.antt` has the level history of a list of raw values.
//!
//! The code joins the two floors into one, `floor((raw * num + (offset - low) * den) / (den *
//! width))`, all in 64 bits. The dividend is first compared with the width of all classes, which
//! refuses both sides at once, and is then below `MAX_CLASSES` times the divisor. So two
//! multiplications and a shift by a fixed number give the exact quotient: the first makes the
//! divisor one of nearly 49 bits, the second is by 2^112 over that. A `Classifier` keeps the
//! numbers that a gain and a grid determine: make one for a block of samples. `Classifier::levels`
//! puts the levels of a slice of raw values to the front of a buffer; `level` is for one raw value,
//! by the one quotient itself.
//!
//! Under a rising gain the raw values with a level lie between two bounds, which `Classifier::new`
//! finds. `levels` first compares each stretch of values with them, several at once, and passes
//! over a stretch that lies outside.
//!
//! Cost: `Classifier::new` four divisions, `level` one; `Classifier::level`, and `levels` for each
//! value of a stretch that isn't passed over, three multiplications, no division and, in `levels`,
//! no branch that depends on a single value.
#![tactic(auto)]

mod classifier;
mod gain;
mod grid;
mod items;
pub mod laws;
mod limits;
mod reading;
mod setup;
mod single;

pub use classifier::Classifier;
pub use gain::{Gain, GainFault, MAX_DEN, MAX_NUM, MAX_OFFSET};
pub use grid::{Grid, GridFault, MAX_CLASSES, MAX_LOW_KPA, MAX_SPAN, MIN_CLASSES, STEP_KPA};
pub use items::Items;
pub use limits::{
    MAX_BLOCK, MAX_DEMO_SAMPLES, MAX_GAUGES, MAX_NAME_BYTES, MAX_SAMPLES, MAX_SEED, MAX_WORKERS,
};
pub use reading::{LevelCounts, MISSING, Reading};
pub use setup::Setup;
pub use single::level;
