//! What a longer run writes: laws.
//!
//! The output and the failed leak checks of a run begin with those of each shorter run of the same
//! program on the same input (`proofs/Runs.antt`). Nothing here runs.
#![tactic(auto)]
