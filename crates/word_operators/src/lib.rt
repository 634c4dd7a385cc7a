//! Operators on words, and bounds of words.
//!
//! What an operator gives for its operands, and which offset an index has, as `run_codes` defines it
//! (`specs/Flat.antt`, "operators"; `docs/RUN.md`, "Expressions"). No memory is read or taken.
#![tactic(auto)]

mod operators;

pub use operators::{operated, operated_alone, plus, scaled, truth, within};
