//! Plain lemmas on lists, sums and numbers that std does not have. They name no word of this
//! project, and there is no code.
//!
//! `proofs/Lists.antt` has parts and places of lists, `Sums.antt` sums over lists,
//! `Naturals.antt` quotients, products and sums of fractions, `Integers.antt` sizes of integers,
//! `Outcomes.antt` facts under an outcome. A crate cites a lemma by its file.
#![tactic(auto)]
