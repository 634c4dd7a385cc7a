//! The words that expressions give, and where places lead, over the memory of a run and any heap that
//! uses its slots again. Nothing changes here.
//!
//! `word` evaluates an expression of `code_rows` that only reads: to its word, or to an exception,
//! exactly as `handled_runs` defines it (`specs/Slots.antt`, "expressions"; `docs/RUN.md`,
//! "Expressions"). It asks that the expression is whole: each word that it reads stands where it is
//! read (`specs/Reading.antt`). `operand` gives the same, without a call for the most frequent
//! expressions: a number, a word of the frame, and a word of the cell that one designates. `evaluate`
//! gives the same too: it tries these and operators on them at first, whose words fit into registers,
//! since why there is none isn't said (`quick`); where that gives no word, `word` answers.
//! `evaluate_condition` is `evaluate` without a call where a word is compared with `null`. `spot` finds
//! a place in the same way ("places" there): the indexes of its name come first. No call takes memory.
//! `evaluate` and `evaluate_condition` visit each node six times more than `word` at most.
#![tactic(auto)]

mod places;
mod quick;
mod words;

pub use places::spot;
pub use quick::{evaluate, evaluate_condition};
pub use words::{operand, word};
