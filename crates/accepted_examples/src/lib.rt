//! Texts that the laws on runs hold of: lemmas, and nothing else.
//!
//! `proofs/Small.antt` has a text whose tokens spell a source, which breaks no rule of names and of
//! types and has a main procedure. Nothing is reported of it (`Quiet`), so its runs are sound
//! (`Sound`): the premises of the law don't contradict each other. `Observed` has a text with an
//! observer, and the same of it; that nothing is reported of it is computed along its paths
//! (`Unreported`). `Lent` has one with a call, and `Handed` one with a formal that owns. Nothing
//! here runs.
#![tactic(auto)]
