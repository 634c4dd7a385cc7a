//! Tests of typed programs.
//!
//! `data/` has sources that break no rule, and `proofs/Expected.antt` has the typed program of
//! each, written by hand. `tools/tree_terms.py` writes their resolved trees and a lemma for each:
//! that the definitions of `typed_tree` make this program of that tree. The prover computes it.
//! Nothing here is for other crates.
#![tactic(auto)]
