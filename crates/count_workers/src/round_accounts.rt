//! Lemmas on what comes back in a round, from what each lane gave and each worker counted. There is
//! no code.
//!
//! `proofs/on_round_accounts/Taken.antt` has the units that came back, as a mix of the workers'
//! lists: how many there are, that each sample a lane gave is named once, and what their segments
//! stand for. `proofs/on_round_accounts/Arrived.antt` has the order in which they came, and what
//! each ring was fed.
