//! The first broken sentence on types of a program, or that it breaks none.
//!
//! `lowered` makes the small trees of the code of files whose names have a meaning
//! (`tree_lowering`), and `settled` gathers what their declarations are (`type_gather`). Then
//! `check_units` goes over all types for Y1 to Y3 (`type_settled`) and over all code for K1 to K8
//! (`statement_rules`). A program with a fault is looked at once more, by `told`: where a mark
//! denotes no type, or bounds aren't static, nothing is told there that follows from it.
//! `type_rules` calls these steps in this order. The definitions are those of `type_definitions`;
//! `docs/LANGUAGE.md`, "Types", says them in words.
//! Time and memory: each pass visits each tree a bounded number of times; `docs/COSTS.md` names
//! what isn't linear.
#![tactic(auto)]

mod check;
mod refused;

pub use check::{check_units, lowered, settled, told};
