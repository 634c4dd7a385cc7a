//! What lowered expressions read has the kinds that their types say: definitions and laws, for readers.
//!
//! `handled_runs` asks of what is read that words of the stack have the kinds that the code is of. Where the
//! words of objects in the stack have the kinds of their types (`specs/Kinds.antt`), what is lowered from
//! typed expressions, names and values reads such words (`proofs/Lowered.antt`, `Filled.antt`), and so do
//! points that are lowered from instructions (`Turns.antt`). Nothing here runs.
#![tactic(auto)]
