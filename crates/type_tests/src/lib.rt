//! Tests of the rules of typing.
//!
//! `data/` has sources that break no rule of names, and `data/cases.txt` says of each which rule of
//! typing it breaks first, and where. `tools/tree_terms.py` writes their resolved trees and a lemma
//! for each: what the definitions of `type_definitions` say of that tree. The prover computes it.
//! They stand in a crate of their own, so that the definitions are not proved a second time for
//! them. Nothing here is for other crates.
#![tactic(auto)]
