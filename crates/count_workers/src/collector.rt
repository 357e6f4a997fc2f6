//! The collector, which places what the workers have counted.
//!
//! The collector goes round the return rings until it has the mark of each. What comes is a mix of
//! the workers' lists; each unit is deposited and given back as it comes
//! (`specs/collector/Collecting.antt`). While lanes are read it takes blocks in the order in which
//! they were dealt, as far as they have come, so that each is joined behind the one before. After a
//! round both ends of each return ring are looked at (`specs/collector/Settling.antt`). No call here
//! takes memory.

mod collecting;
mod depot;
mod settling;

pub use collecting::{Return, collect, collect_rest, look_in_turn};
pub use depot::Depot;
pub use settling::settle_returns;
