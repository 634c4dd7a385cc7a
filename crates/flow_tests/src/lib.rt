//! Tests of the definitions of control flow.
//!
//! `data/` has sources that break no rule of names or types. Their resolved trees are terms in
//! `proofs/Sources.antt`, which `tools/flow_sources.py` writes; the lemmas say which points,
//! acts, successors, facts and reports they have, and the prover computes it. Nothing here is for
//! other crates.
#![tactic(auto)]
