//! Ranks of types: each has a higher rank than what it is made of.
//!
//! `ranks` gives each type of a table a number, one after the other, each after what it is made of.
//! Where types have ranks at all, which is where none has itself in it, these are ranks
//! (`specs/Ranks.antt`). Types are entered from a stack, each once: first what it is made of gets
//! ranks, and then the type itself. Time and memory are linear in the table.
#![tactic(auto)]

mod ranking;
mod visits;

pub use ranking::ranks;
