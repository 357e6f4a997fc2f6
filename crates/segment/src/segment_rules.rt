//! The parts of a segment, and the rules that they keep: as facts
//! (`specs/segment_rules/Rules.antt`), as tests in a fixed order
//! (`specs/segment_rules/Tests.antt`), and the first that is broken.
//!
//! `Parts` are lists: what stands of a segment on a disk. The rules come in three kinds. By the
//! order rule the entries of each list ascend, so no body has two spellings; by the sum rules the
//! numbers agree with each other; by the residue rules the residue is one, and the ends of the
//! history lie beside it. `first_broken` goes over each of the five lists twice, for its order and
//! for its sum, and twice more over the ranges, for the first of them and the last. It takes no
//! memory. That the lists are short is no condition: ascending keys of 16 bits come to an end.

mod ends;
mod name;
mod order;
mod parts;
mod rule;
mod rules;
mod sums;

pub use name::Name;
pub use parts::Parts;
pub use rule::BrokenRule;
pub use rules::first_broken;
