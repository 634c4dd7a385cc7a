//! Tests of the definition of leak plans: the plans of small programs.
//!
//! The programs are those of `flow_tests/data` and `machine_tests/data`. Each plan was worked out by
//! hand from `docs/FLOW.md`; the lemmas say that it is the plan of the definition, which has no
//! other. Nothing here is for other crates.
#![tactic(auto)]
