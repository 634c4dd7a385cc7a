//! Tests of `state_trees`, `move_rules`, `borrow_observe` and `report_lists`, over their public
//! names.
//!
//! They stand in a crate of their own, so that no library is proved a second time for its tests.
//! The clauses of these crates say what they answer, for all facts and acts. So the lemmas of
//! `proofs/Rows.antt` compare the definitions with small paths that were worked out by hand from
//! `docs/RULES.md`, and the tests show that the calls do answer, since a call may always say that
//! it is out of memory. Nothing here is for other crates.
#![tactic(auto)]

#[cfg(test)]
mod reports;
#[cfg(test)]
mod trees;
