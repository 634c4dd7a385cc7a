//! Tests of the rules of names.
//!
//! `proofs/SmallOccurrences.antt`, `proofs/SmallDeclarations.antt`, `proofs/SmallIdentifiers.antt`
//! and `proofs/SmallChoices.antt` have small sources: a text, the tree that its tokens spell, and
//! what the definitions of `name_events` say of it, which is the first broken rule with its column,
//! the numbers of the denoted declarations, or those of all identifiers by their columns. The
//! prover computes all of it.
//! `data/` has whole sources, each of which breaks a rule, and `data/cases.txt` says which one and
//! where. `tools/tree_terms.py` writes their trees and a lemma for each, in the other files.
//! All of this stands in a crate of its own, so that the definitions are not proved a second time
//! for it. Nothing here is for other crates.
#![tactic(auto)]
