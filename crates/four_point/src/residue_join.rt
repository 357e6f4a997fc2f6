//! Joining the residues of two parts of a level history, and what cycles and residues have to do
//! with the standard's count.
//!
//! [`join_residue`] makes the residue of a concatenation of the residues of its two parts, and
//! counts exactly the cycles that neither part had. It pushes the right residue's levels onto the
//! left one's stack. Nothing else is needed: a four-point deletion inside a part is a deletion of
//! the points of the whole, so an end of a part that is no point of the whole, an end that the
//! other part extends, and a plateau over the cut are all met by the push. It takes no memory; a
//! level is put once and deleted at most once, so the cost is linear in the two lengths.
//!
//! [`laws::half_units`] is the equality with the three-point count of ASTM E1049-85, 5.4.4: twice
//! the cycles and once each two neighbours of the residue are the half units of the run over the
//! whole history, pair by pair. [`PairCounter`] takes that count from a run over the history
//! itself, to compare the two.

mod join;
/// Laws over the definitions alone.
pub mod laws;
mod pairs;

pub use join::join_residue;
pub use pairs::PairCounter;
